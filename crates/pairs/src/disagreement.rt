// What two rules disagree on, and which gives way.
ghost use Rattle.std.specs.Prelude.{◌≡◌, ℕ, MatchOption};
ghost use Rattle.site.specs.Sites.{plan};
ghost use Rattle.rules.specs.Rules.{rule_of};
ghost use Rattle.pairs.specs.Disagreement.{saying, opposed, mark_of, Differ, LowestClass, Contradict, Tells};

use crate::answers::{Entry, Mark};
use crate::walking::Pair;
use kind::Kind;
use rules::{Rule, Saying};
use site::Site;
use std::cmp::Ordering;

// The entry of two rules, if they contradict each other.
pub(crate) fn entry_of<K: Kind>(site: &Site, pair: &Pair<K>) -> Option<Entry<K::Point>>
    ensures { MatchOption result (Contradict (plan site.now) K.Kind.sense (rule_of pair.now.one.now) (rule_of pair.now.other.now) → ⊥) (λ e. (e.first ≡ pair.now.first) × (e.second ≡ pair.now.second) × Tells (plan site.now) K.Kind.sense (rule_of pair.now.one.now) (rule_of pair.now.other.now) e) }
{
    let Pair {
        first,
        second,
        one,
        other,
    } = *pair;
    let port = one.ports.lowest_common(site, &other.ports)?;
    let class = contested(site, one, other)?;
    let point = one.condition.common(&other.condition)?;
    Some(Entry {
        first,
        second,
        first_place: one.place,
        second_place: other.place,
        port,
        class,
        point,
        mark: mark_for(one.rank, other.rank),
    })
}

// The lowest class that one permits and the other denies.
fn contested<K>(site: &Site, one: &Rule<K>, other: &Rule<K>) -> Option<u8>
    ensures { MatchOption result ((c : ℕ) → Differ (plan site.now) (rule_of one.now) (rule_of other.now) c → ⊥) (λ c. LowestClass (plan site.now) (rule_of one.now) (rule_of other.now) c) }
{
    (0..site.class_count() as u8).find(|class| opposed(
        said(site, one, *class),
        said(site, other, *class),
    ))
}

// What a rule says of a class, by the reading of the site.
pub fn said<K>(site: &Site, rule: &Rule<K>, class: u8) -> Saying
    ensures { result ≡ saying (plan site.now) (rule_of rule.now) class }
{
    rule.says(site.reading(), class)
}

// Whether one permits what the other denies.
fn opposed(one: Saying, other: Saying) -> bool
    ensures { result ≡ opposed one other }
{
    matches!(
        (one, other),
        (Saying::Permit, Saying::Deny) | (Saying::Deny, Saying::Permit)
    )
}

// Which of two rules gives way, by their ranks: the one with the greater number.
fn mark_for(first: u8, second: u8) -> Mark
    ensures { result ≡ mark_of first second }
{
    match first.cmp(&second) {
        Ordering::Less => Mark::Second,
        Ordering::Equal => Mark::Open,
        Ordering::Greater => Mark::First,
    }
}
