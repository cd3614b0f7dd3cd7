// Patterns: what a path is told by.
ghost use Rattle.std.specs.Prelude.{◌≡◌, List, [], ◌∷◌, ◌++◌, length, ◌<◌, ◌≤◌, MatchResult};
ghost use Rattle.paths.specs.Patterns.{items_of, lone};

use fixed::{Full, Table};

#[derive(Clone, Copy, Debug, PartialEq, Eq)]
pub enum Item {
    Node(u8),
    Star,
}

// At most twelve items. A pattern of none stands for no path.
#[derive(Clone, Copy)]
pub struct Pattern {
    items: Table<Item, 12>,
}

impl Pattern {
    pub fn new() -> Pattern
        ensures { items_of result ≡ [] }
    {
        Pattern {
            items: Table::new(Item::Star),
        }
    }

    // One item more at the end; nothing is altered where there are twelve.
    pub fn push(&mut self, item: Item) -> Result<(), Full>
        ensures { MatchResult result
            (λ _. (length (items_of self.old) < 12) × (items_of self.new ≡ items_of self.old ++ item ∷ []))
            (λ _. (12 ≤ length (items_of self.old)) × (self.new ≡ self.old)) }
    {
        self.items.push(item)
    }

    pub fn items(&self) -> &[Item]
        ensures is { result.now ≡ items_of self.now }
        ensures few { length result.now ≤ 12 }
    {
        self.items.as_slice()
    }

    // The one node that it stands for alone, where it is a node.
    pub(crate) fn lone(&self) -> Option<u8>
        ensures { result ≡ lone (items_of self.now) }
    {
        match self.items() {
            [Item::Node(m)] => Some(*m),
            _ => None,
        }
    }
}
