// The search of a whole site for the paths of a pattern.
ghost use Rattle.std.specs.Prelude.{◌≡◌, ◌≤◌, length};
ghost use Rattle.site.specs.Sites.{plan};
ghost use Rattle.paths.specs.declared.finding.Fault.TheVariants.{TooMany};
ghost use Rattle.paths.specs.Found.{with_ends, alone_ports, searched};
ghost use Rattle.paths.specs.Paths.{Listed, Judged};
ghost use Rattle.paths.specs.Patterns.{items_of};
ghost use Rattle.paths.specs.Tracking.{Tracked};

use crate::pattern::Pattern;
use crate::ports::PortSet;
use crate::roads::Roads;
use crate::searching::Search;
use crate::tally::OverBudget;
use site::{Link, Site};

// Why a pattern is refused: it has more than 65,536 partial paths, or no path matches it.
#[derive(Clone, Copy, Debug, PartialEq)]
pub enum Fault {
    TooMany,
    NoPath,
}

impl From<OverBudget> for Fault {
    ghost from_gives = { λ _ f. f ≡ TooMany };

    fn from(_over: OverBudget) -> Fault {
        Fault::TooMany
    }
}

// The ports that the paths of a pattern touch.
pub fn search(site: &Site, pattern: &Pattern) -> Result<PortSet, Fault>
    ensures is { result ≡ searched (plan site.now).links (length (plan site.now).nodes) (items_of pattern.now) }
    ensures tracked { Tracked (items_of pattern.now) }
    ensures listed { Listed (plan site.now).links (length (plan site.now).nodes) (items_of pattern.now) }
    ensures judged { Judged (plan site.now).links (length (plan site.now).nodes) (items_of pattern.now) result }
{
    let roads = Roads::new(site);
    let tally = Search {
        roads: &roads,
        pattern,
    }
    .tally()?;
    let found = tally.found().union(alone(site, pattern));
    if found.is_empty() {
        return Err(Fault::NoPath);
    }
    Ok(found)
}

// The ports of the path of one node, where the pattern stands for one.
#[tactic(auto, unfolding(crate::specs::Found::end_ports))]
fn alone(site: &Site, pattern: &Pattern) -> PortSet
    ensures { result.bits ≡ alone_ports (plan site.now).links (length (plan site.now).nodes) (items_of pattern.now) }
{
    match pattern.lone() {
        Some(node) if usize::from(node) < site.node_count() => ports_of(site.links(), node),
        _ => PortSet::empty(),
    }
}

// Every port of a node.
fn ports_of(links: &[Link], node: u8) -> PortSet
    requires { length links.now ≤ 64 }
    ensures { result ≡ with_ends (record { bits = 0 }) 0 links.now node }
{
    links
        .iter()
        .enumerate()
        .fold(PortSet::empty(), |ports, (i, link)| {
            ports.with_end(i as u8, *link, node)
        })
}
