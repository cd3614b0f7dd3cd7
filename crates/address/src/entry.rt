// Comparisons of addresses: a block to be in, or one to be outside of.
ghost use Rattle.std.specs.Prelude.{◌≡◌};
ghost use Rattle.address.specs.Entries.{agrees, all_agree, fixed, excludes};

use crate::block::Block;

// A block that an address must be in, or must not be in.
#[derive(Clone, Copy)]
pub enum Entry {
    In(Block),
    Out(Block),
}

impl Entry {
    // Whether an address is in the block, or outside an excluded one.
    pub(crate) fn agrees(&self, p: &[u8; 4]) -> bool
        ensures { result ≡ agrees p.now self.now }
    {
        match self {
            Entry::In(block) => block.covers(p),
            Entry::Out(block) => !block.covers(p),
        }
    }

    // The number that a block in which an address must be gives a part, if it gives it one.
    pub(crate) fn fixed(&self, part: usize) -> Option<u8>
        ensures { result ≡ fixed part self.now }
    {
        match self {
            Entry::In(block) => block.number(part),
            Entry::Out(_) => None,
        }
    }

    // Whether an excluded block has a certain number at a part.
    pub(crate) fn excludes(&self, part: usize, value: u8) -> bool
        ensures { result ≡ excludes part value self.now }
    {
        match self {
            Entry::In(_) => false,
            Entry::Out(block) => block.number(part) == Some(value),
        }
    }
}

// Whether an address agrees with all comparisons.
pub(crate) fn all_agree(entries: &[Entry], p: &[u8; 4]) -> bool
    ensures { result ≡ all_agree p.now entries.now }
{
    entries.iter().all(|entry| entry.agrees(p))
}
