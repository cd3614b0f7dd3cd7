// The search for one path that touches a port: at a node, and along its links.
ghost use Rattle.std.specs.Prelude.{◌≡◌, ◌+◌, ◌<◌, ◌≤◌, false, Some, slice_index_or};
ghost use Rattle.paths.specs.Routes.{without, first_hit, Drawn};
ghost use Rattle.paths.specs.Searches.{last_of, all_walks_of, walks_at, walks_past};
ghost use Rattle.paths.specs.Walks.{free};

use crate::node::Node;
use crate::searching::Search;
use crate::trail::{Mark, Trail};

// The end of the path under search: its node and the number of that, the live positions, and the link that is still to be met.
// Beside walking.rt's Tip and walk: those count every partial path under a budget and gather ports, these stop at the first hit and write it on the way back.
#[derive(Clone, Copy)]
struct Tip {
    node: Node,
    depth: usize,
    live: u16,
    unmet: Option<u8>,
}

impl Search<'_> {
    // A path of two nodes or more by a link, whichever node it starts from; its nodes are written.
    pub(crate) fn path_by(&self, link: u8, out: &mut [u8; 48]) -> Option<usize>
        ensures { Drawn 0 0 (first_hit (last_of self.now) (Some link) (all_walks_of self.now)) out.old result out.new }
    {
        let live = self.pattern.at_start();
        let mut trail = Trail::new();
        // Loops here and below: of what a chain's closure changes, a proof would know nothing.
        for number in 0..self.roads.nodes {
            let tip = Tip {
                node: Node { number },
                depth: 0,
                live,
                unmet: Some(link),
            };
            if let Some(len) = self.find_at_node(&mut trail, out, tip) {
                return Some(len);
            }
        }
        None
    }

    // Goes on to the tip's node, from the live positions before it; once a path is found, its nodes from there on are written.
    #[cycle(find)]
    fn find_at_node(&self, trail: &mut Trail, out: &mut [u8; 48], tip: Tip) -> Option<usize>
        requires deep { tip.depth + free trail.old.marked ≤ 48 }
        requires fresh { slice_index_or trail.old.marked tip.node.number false ≡ false }
        ensures trail { trail.new.marked ≡ trail.old.marked }
        ensures drawn { Drawn 0 tip.depth (first_hit (last_of self.now) tip.unmet (walks_at self.now trail.old.marked tip.node.number tip.live)) out.old result out.new }
    {
        let live = self.pattern.after_node(tip.live, tip.node.number);
        if live == 0 {
            return None;
        }
        if self.pattern.stands(live) && tip.unmet.is_none() {
            out[tip.depth] = tip.node.number;
            return Some(tip.depth + 1);
        }
        trail.mark(tip.node);
        let guard = Mark {
            trail,
            node: tip.node,
        };
        let onward = Tip {
            depth: tip.depth + 1,
            live,
            ..tip
        };
        let len = self.find_along_links(guard.trail, out, onward)?;
        out[tip.depth] = tip.node.number;
        Some(len)
    }

    // Tries each way on from the tip's node, from the live positions after it; `depth` is the number of the next node.
    #[cycle(find)]
    fn find_along_links(&self, trail: &mut Trail, out: &mut [u8; 48], tip: Tip) -> Option<usize>
        requires deep { tip.depth + free trail.old.marked ≤ 48 }
        ensures trail { trail.new.marked ≡ trail.old.marked }
        ensures drawn { Drawn 1 tip.depth (first_hit (last_of self.now) tip.unmet (walks_past self.now trail.old.marked tip.node.number tip.live)) out.old result out.new }
    {
        for step in self.roads.at(tip.node) {
            let node = Node { number: step.node };
            if !trail.has(node) {
                let unmet = without(tip.unmet, step.link);
                let next = Tip { node, unmet, ..tip };
                if let Some(len) = self.find_at_node(trail, out, next) {
                    return Some(len);
                }
            }
        }
        None
    }
}

// What is still to be met after a link.
fn without(unmet: Option<u8>, link: u8) -> Option<u8>
    ensures { result ≡ without unmet link }
{
    if unmet == Some(link) { None } else { unmet }
}
