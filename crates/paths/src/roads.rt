// The ways on from each node, so that a search tries a node's own links alone.
ghost use Rattle.std.specs.Prelude.{◌≡◌, ◌≤◌, map, length};
ghost use Rattle.fixed.specs.Items.{items};
ghost use Rattle.paths.specs.Walks.{Sound};

mod index;

use fixed::Table;

// A link from a node, and the node at its other end.
#[derive(Clone, Copy)]
pub(crate) struct Step {
    pub(crate) link: u8,
    pub(crate) node: u8,
}

// The ways on over a site's links, and how many nodes it has.
#[derive(Drop)]
pub(crate) struct Roads {
    of: [Table<Step, 64>; 48],
    pub(crate) nodes: u8,
    ghost whole: { length of ≡ 48 },
    ghost sound: { Sound (map items of) },
    ghost few: { nodes ≤ 48 },
}
