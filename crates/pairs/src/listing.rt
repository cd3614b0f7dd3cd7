// The list of all contradicting pairs: first whether it fits, then its entries.
ghost use Rattle.std.specs.Prelude.{◌≡◌, ◌<◌, ◌≤◌, true, false, List, map, length};
ghost use Rattle.site.specs.Sites.{plan};
ghost use Rattle.rules.specs.Rules.{rule_of};
ghost use Rattle.pairs.specs.declared.answers.Entry.{Entry};
ghost use Rattle.pairs.specs.Pairs.{Names, NamesAll, Reports, Listed};

use crate::answers::{Entry, Mark, Totals};
use crate::clashing::Clashes;
use kind::Kind;
use rules::Rule;
use site::{Cause, Refusal, Site};

// Writes the contradicting pairs of the rules to the front of a list, by first and then by second position.
pub fn list_pairs<K: Kind>(
    site: &Site,
    rules: &[Rule<K>],
    list: &mut [Entry<K::Point>],
) -> Result<Totals, Refusal>
    ensures { Listed (plan site.now) K.Kind.sense (map rule_of rules.now) list.old result list.new }
{
    if !fits(site, rules, list.len()) {
        return Err(Cause::NoRoom.at(0));
    }
    Ok(fill(site, rules, list))
}

// Whether so many places take an entry of each contradicting pair.
fn fits<K: Kind>(site: &Site, rules: &[Rule<K>], places: usize) -> bool
    ensures yes { result ≡ true → (es : List (Entry K.Point)) × NamesAll (plan site.now) K.Kind.sense (map rule_of rules.now) es × (length es ≤ places) }
    ensures none { result ≡ false → (es : List (Entry K.Point)) × Names (plan site.now) K.Kind.sense (map rule_of rules.now) es × (places < length es) }
{
    Clashes::of(site, rules).nth(places).is_none()
}

// Writes the entries of all contradicting pairs to the front of the list.
fn fill<K: Kind>(site: &Site, rules: &[Rule<K>], list: &mut [Entry<K::Point>]) -> Totals
    requires { (es : List (Entry K.Point)) × NamesAll (plan site.now) K.Kind.sense (map rule_of rules.now) es × (length es ≤ length list.old) }
    ensures { Reports (plan site.now) K.Kind.sense (map rule_of rules.now) list.old list.new result.pairs result.unsettled }
{
    let mut totals = Totals {
        pairs: 0,
        unsettled: 0,
    };
    for entry in Clashes::of(site, rules) {
        totals.unsettled += usize::from(entry.mark == Mark::Open);
        // By index: zipped with `iter_mut`, only the list's length is known after, and what stands in it stays open.
        list[totals.pairs] = entry;
        totals.pairs += 1;
    }
    totals
}
