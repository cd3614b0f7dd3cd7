// How what several rules say is settled: the smallest rank number counts.
ghost use Rattle.std.specs.Prelude.{◌≡◌, map};
ghost use Rattle.site.specs.Sites.{plan};
ghost use Rattle.rules.specs.Rules.{rule_of};
ghost use Rattle.deciding.specs.Deciding.{Decides};
ghost use Rattle.deciding.specs.Tallies.{both, joined, counted, verdict};

use kind::Kind;
use pairs::{Spot, said};
use rules::{Rule, Saying};
use site::Site;
use std::cmp::Ordering;

// What rules decide at a port, a class and a point.
#[derive(Clone, Copy, Debug, PartialEq, Eq)]
pub enum Decision {
    Permit,
    Deny,
    Split,
    Silent,
}

// What rules of one rank number said, of which at least one spoke.
#[derive(Clone, Copy)]
enum Said {
    Permit,
    Deny,
    Both,
}

// The smallest rank number heard, and what was said at it.
#[derive(Clone, Copy)]
struct Hearing {
    rank: u8,
    said: Said,
}

// What the rules decide there.
pub fn settle<K: Kind>(site: &Site, rules: &[Rule<K>], spot: &Spot<K::Point>) -> Decision
    ensures { Decides (plan site.now) K.Kind.sense (map rule_of rules.now) spot.now.port spot.now.class spot.now.point.now result }
{
    let tally = rules.iter().fold(None, |tally, rule| {
        // A rule is silent where it does not touch the port or does not hold at the point.
        let heard = if rule.ports.contains(site, spot.port) && rule.condition.contains(spot.point) {
            said(site, rule, spot.class)
        } else {
            Saying::Silent
        };
        counted(tally, rule.rank, heard)
    });
    verdict(tally)
}

// What was heard, with what one rule more says.
fn counted(tally: Option<Hearing>, rank: u8, said: Saying) -> Option<Hearing>
    ensures { result ≡ counted tally rank said }
{
    let said = match said {
        Saying::Silent => return tally,
        Saying::Permit => Said::Permit,
        Saying::Deny => Said::Deny,
    };
    let more = Hearing { rank, said };
    Some(tally.map_or(more, |heard| heard.joined(more)))
}

impl Hearing {
    // Both in one.
    fn joined(self, more: Hearing) -> Hearing
        ensures { result ≡ joined self more }
    {
        match self.rank.cmp(&more.rank) {
            Ordering::Less => self,
            Ordering::Greater => more,
            Ordering::Equal => Hearing {
                rank: self.rank,
                said: both(self.said, more.said),
            },
        }
    }
}

fn both(one: Said, other: Said) -> Said
    ensures { result ≡ both one other }
{
    match (one, other) {
        (Said::Permit, Said::Permit) | (Said::Deny, Said::Deny) => one,
        _ => Said::Both,
    }
}

fn verdict(tally: Option<Hearing>) -> Decision
    ensures { result ≡ verdict tally }
{
    match tally.map(|heard| heard.said) {
        None => Decision::Silent,
        Some(Said::Permit) => Decision::Permit,
        Some(Said::Deny) => Decision::Deny,
        Some(Said::Both) => Decision::Split,
    }
}
