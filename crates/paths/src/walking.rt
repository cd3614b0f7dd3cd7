// The search from every node: at a node, and along its links.
ghost use Rattle.std.specs.Prelude.{◌≡◌, ◌+◌, ◌<◌, ◌≤◌, false, length, MatchResult, slice_index_or};
ghost use Rattle.paths.specs.Searches.{last_of, all_walks_of, walks_at, walks_past};
ghost use Rattle.paths.specs.Walks.{gather, Counted};

use crate::node::Node;
use crate::ports::PortSet;
use crate::searching::Search;
use crate::tally::{OverBudget, Tally};
use crate::trail::{Mark, Trail};

// The end of a path under search: its node, the live positions, and the ports that the path uses.
#[derive(Clone, Copy)]
struct Tip {
    node: Node,
    live: u16,
    used: PortSet,
}

impl Search<'_> {
    // The tally of the partial paths from each node.
    pub(crate) fn tally(&self) -> Result<Tally, OverBudget>
        ensures { MatchResult result
            (λ e. (length (all_walks_of self.now) ≤ 65536)
            × (e.found.bits ≡ gather (last_of self.now) 0 0 (all_walks_of self.now)))
            (λ _. 65536 < length (all_walks_of self.now)) }
    {
        let mut trail = Trail::new();
        let mut tally = Tally::new();
        let live = self.pattern.at_start();
        // Loops here and below: of what a chain's closure changes, a proof would know nothing.
        for number in 0..self.roads.nodes {
            let tip = Tip {
                node: Node { number },
                live,
                used: PortSet::empty(),
            };
            self.at_node(&mut trail, &mut tally, tip)?;
        }
        Ok(tally)
    }

    // Counts the partial paths that go on to the tip's node, and gathers the ports of those that match.
    #[cycle(walk)]
    fn at_node(&self, trail: &mut Trail, tally: &mut Tally, tip: Tip) -> Result<(), OverBudget>
        requires fresh { slice_index_or trail.old.marked tip.node.number false ≡ false }
        ensures trail { trail.new.marked ≡ trail.old.marked }
        ensures counted { MatchResult result
            (λ _. Counted (last_of self.now) tally.old tip.used.bits (walks_at self.now trail.old.marked tip.node.number tip.live) tally.new)
            (λ _. 65536 < tally.old.count + length (walks_at self.now trail.old.marked tip.node.number tip.live)) }
    {
        let live = self.pattern.after_node(tip.live, tip.node.number);
        if live == 0 {
            return Ok(());
        }
        tally.add(self.pattern.stands(live), tip.used)?;
        trail.mark(tip.node);
        let guard = Mark {
            trail,
            node: tip.node,
        };
        self.along_links(guard.trail, tally, Tip { live, ..tip })
    }

    #[cycle(walk)]
    fn along_links(&self, trail: &mut Trail, tally: &mut Tally, tip: Tip) -> Result<(), OverBudget>
        ensures trail { trail.new.marked ≡ trail.old.marked }
        ensures counted { MatchResult result
            (λ _. Counted (last_of self.now) tally.old tip.used.bits (walks_past self.now trail.old.marked tip.node.number tip.live) tally.new)
            (λ _. 65536 < tally.old.count + length (walks_past self.now trail.old.marked tip.node.number tip.live)) }
    {
        for step in self.roads.at(tip.node) {
            let node = Node { number: step.node };
            if !trail.has(node) {
                let used = tip.used.with_link(step.link);
                self.at_node(trail, tally, Tip { node, used, ..tip })?;
            }
        }
        Ok(())
    }
}
