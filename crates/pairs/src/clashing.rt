// The contradicting pairs of a list's rules.
ghost use Rattle.std.specs.Prelude.{◌≡◌, length, map};
ghost use Rattle.std.specs.Iterator.{at_most};
ghost use Rattle.site.specs.Sites.{plan};
ghost use Rattle.rules.specs.Rules.{rule_of};
ghost use Rattle.pairs.specs.Clashing.{Onward};
ghost use Rattle.pairs.specs.Walking.{left};

use crate::answers::Entry;
use crate::disagreement::entry_of;
use crate::walking::Pairs;
use kind::Kind;
use rules::Rule;
use site::Site;

// The entries of the pairs that contradict each other, in the order of a walk over all pairs.
#[derive(Drop)]
pub(crate) struct Clashes<'r, K> {
    site: &'r Site,
    pairs: Pairs<'r, K>,
}

impl<'r, K: Kind> Clashes<'r, K> {
    pub(crate) fn of(site: &'r Site, rules: &'r [Rule<K>]) -> Clashes<'r, K>
        ensures site { result.site.now ≡ site.now }
        ensures rules { result.pairs.rules.now ≡ rules.now }
        ensures first { result.pairs.first ≡ 0 }
        ensures second { result.pairs.second ≡ 1 }
    {
        Clashes {
            site,
            pairs: Pairs::of(rules),
        }
    }
}

impl<'r, K: Kind> Iterator for Clashes<'r, K> {
    type Item = Entry<K::Point>;

    ghost next_gives = { λ s r t. (t.site.now ≡ s.site.now) × (t.pairs.rules.now ≡ s.pairs.rules.now) × Onward (plan s.site.now) K.Kind.sense (map rule_of s.pairs.rules.now) s.pairs.first s.pairs.second t.pairs.first t.pairs.second r };

    ghost remaining = { λ s. at_most (left (length s.pairs.rules.now) s.pairs.first s.pairs.second) };

    fn next(&mut self) -> Option<Entry<K::Point>> {
        let site = self.site;
        self.pairs.find_map(|pair| entry_of(site, &pair))
    }
}
