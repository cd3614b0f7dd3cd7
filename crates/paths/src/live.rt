// The live positions of a pattern: position k is live after some nodes where the first k items stand for them.
ghost use Rattle.std.specs.Prelude.{◌≡◌, ◌+◌, ◌^◌, ◌<◌, ◌&&◌, length, bit_or};
ghost use Rattle.paths.specs.Live.{is_star, goes, start, after};
ghost use Rattle.paths.specs.Patterns.{items_of};
ghost use Rattle.paths.specs.Digits.{has};

use crate::pattern::{Item, Pattern};

// By hand beside PortSet's `at` and `with`: sets of one type, as wide as those, make the search 1.3 times as long.
#[tactic(auto, unfolding(crate::specs::Digits::has))]
fn is_live(live: u16, k: usize) -> bool
    requires { k < 16 }
    ensures { result ≡ has live k }
{
    (live >> k) % 2 == 1
}

#[tactic(auto, using(std::proofs::lemmas::Nat::one_shl))]
fn with(live: u16, k: usize) -> u16
    requires { k < 16 }
    ensures { result ≡ bit_or live (2 ^ k) }
{
    live | (1u16 << k)
}

fn opens_on(item: Item, current: bool) -> bool
    ensures { result ≡ (is_star item && current) }
{
    item == Item::Star && current
}

// Whether the position past an item is live after a node, where `out` has those before it.
// Five parameters: of these the loop that calls it changes `k`, `item` and `out`, and a struct would be made for this one call.
fn goes_on(item: Item, node: u8, k: usize, live: u16, out: u16) -> bool
    requires { k < 12 }
    ensures { result ≡ goes item node (has live k) (has live (k + 1)) (has out k) }
{
    match item {
        Item::Node(m) => m == node && is_live(live, k),
        Item::Star => is_live(live, k + 1) || is_live(out, k),
    }
}

impl Pattern {
    // Before any node: the front of the pattern and what its leading stars reach.
    pub(crate) fn at_start(&self) -> u16
        ensures { result ≡ start (items_of self.now) }
    {
        // A loop: each step reads the bit that the step before may have set, so a fold would only hand the same bits on.
        let mut live = 1;
        for (k, item) in self.items().iter().enumerate() {
            if opens_on(*item, is_live(live, k)) {
                live = with(live, k + 1);
            }
        }
        live
    }

    // After one more node.
    pub(crate) fn after_node(&self, live: u16, node: u8) -> u16
        ensures { result ≡ after (items_of self.now) live node }
    {
        // A loop: at a star each step reads what the step before may have set, so a fold would only hand the same bits on.
        let mut out = 0;
        for (k, item) in self.items().iter().enumerate() {
            if goes_on(*item, node, k, live, out) {
                out = with(out, k + 1);
            }
        }
        out
    }

    // Whether all its items stand for the nodes so far.
    pub(crate) fn stands(&self, live: u16) -> bool
        ensures { result ≡ has live (length (items_of self.now)) }
    {
        is_live(live, self.items().len())
    }
}
