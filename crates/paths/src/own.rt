// One path of a rule's patterns that touches a port.
ghost use Rattle.std.specs.Prelude.{◌≡◌, false, length, Some, MatchBool, MatchOption, ◌==◌, map, slice_set};
ghost use Rattle.site.specs.Sites.{plan};
ghost use Rattle.paths.specs.Patterns.{items_of};
ghost use Rattle.paths.specs.Searches.{last_of, all_walks_of};
ghost use Rattle.paths.specs.Routes.{first_hit, Drawn, stands_alone, NoRoute, Routed};

use crate::ports::Port;
use crate::roads::Roads;
use crate::route::Patterned;
use crate::searching::Search;
use site::Site;

// Writes the nodes of such a path to the front of a buffer of 48 bytes or more, and tells how many.
pub fn own_path<P: Patterned>(
    site: &Site,
    patterns: &[P],
    port: Port,
    out: &mut [u8],
) -> Option<usize>
    ensures { MatchOption result ((out.new ≡ out.old) × NoRoute (plan site.now).links (length (plan site.now).nodes) (map P.items patterns.now) port out.old) (λ len. Routed (plan site.now).links (length (plan site.now).nodes) (map P.items patterns.now) port out.old len out.new) }
{
    let front = out.first_chunk_mut::<48>()?;
    if !port.is_in(site) {
        return None;
    }
    let roads = Roads::new(site);
    // A loop: of what a chain's closure changes, a proof would know nothing.
    for pattern in patterns {
        let search = Search {
            roads: &roads,
            pattern: pattern.pattern(),
        };
        if let Some(len) = search.path(port, front) {
            return Some(len);
        }
    }
    None
}

impl Search<'_> {
    // The same for the search's pattern, and a port of the site.
    fn path(&self, port: Port, out: &mut [u8; 48]) -> Option<usize>
        ensures { MatchBool (stands_alone (items_of self.now.pattern.now) self.now.roads.now.nodes port.node) ((result ≡ Some 1) × (out.new ≡ slice_set out.old 0 port.node)) (Drawn 0 0 (first_hit (last_of self.now) (Some port.link) (all_walks_of self.now)) out.old result out.new) }
    {
        let nodes = self.roads.nodes;
        if self
            .pattern
            .lone()
            .is_some_and(|node| node == port.node && node < nodes)
        {
            out[0] = port.node;
            return Some(1);
        }
        self.path_by(port.link, out)
    }
}
