// The trail: which nodes the path under search is already on.
ghost use Rattle.std.specs.Prelude.{◌≡◌, true, false, length, slice_index_or, slice_set};
ghost use Rattle.paths.specs.Walks.{unmarked};

use crate::node::Node;

#[derive(Drop)]
pub(crate) struct Trail {
    marked: [bool; 48],
    ghost whole: { length marked ≡ 48 },
}

impl Trail {
    pub(crate) fn new() -> Trail
        ensures { result.marked ≡ unmarked }
    {
        Trail {
            marked: [false; 48],
        }
    }

    pub(crate) fn has(&self, node: Node) -> bool
        ensures { result ≡ slice_index_or self.now.marked node.number false }
    {
        self.marked[usize::from(node.number)]
    }

    pub(crate) fn mark(&mut self, node: Node)
        ensures { self.new.marked ≡ slice_set self.old.marked node.number true }
    {
        self.marked[usize::from(node.number)] = true;
    }

    fn clear(&mut self, node: Node)
        ensures { self.new.marked ≡ slice_set self.old.marked node.number false }
    {
        self.marked[usize::from(node.number)] = false;
    }
}

// A node of the trail while it lives: at its end, on every way out, the node is cleared.
pub(crate) struct Mark<'a> {
    pub(crate) trail: &'a mut Trail,
    pub(crate) node: Node,
}

impl Drop for Mark<'_> {
    fn drop(self)
        ensures { self.exit.0.now.marked ≡ slice_set self.entry.trail.now.marked self.entry.node.number false }
    {
        let node = self.node;
        self.trail.clear(node);
        let Mark { trail: _, node: _ } = self;
    }
}
