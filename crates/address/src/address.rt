// Sets of addresses by blocks, under the word `hostIP`.
ghost use Rattle.std.specs.Prelude.{◌≡◌, ◌≤◌, length};
ghost use Rattle.address.specs.Labels.{address_text};
ghost use Rattle.kind.specs.Taking.{after, reply};
ghost use Rattle.address.specs.Addresses.{entries, added, address_sense};
ghost use Rattle.std.proofs.Common.{rules};

use crate::block::{Block, block_of};
use crate::choice::choose;
use crate::entry::{Entry, all_agree};
use crate::label::label_of;
use kind::{Claim, Declined, Kind, Printable, Sign, put, within};

// Up to eight comparisons, which hold together.
// With their count beside them: a kind's laws are of whole values, and of a `Table` only the items are known.
#[derive(Clone, Copy)]
pub struct Address {
    count: usize,
    slots: [Entry; 8],
}

impl Address {
    // The comparisons taken so far.
    pub(crate) fn entries(&self) -> &[Entry]
        ensures taken { result.now ≡ entries self.now }
        ensures few { length result.now ≤ 8 }
    {
        &self.slots[..self.count.min(8)]
    }

    // Takes one more comparison on, if it is not the ninth.
    fn add(&mut self, entry: Entry) -> Result<Claim, Declined>
        ensures reply { result ≡ reply (added self.old entry) }
        ensures after { self.new ≡ after self.old (added self.old entry) }
    {
        if self.count >= 8 {
            return Err(Declined::BadValue);
        }
        self.slots[self.count] = entry;
        self.count += 1;
        Ok(Claim::Taken)
    }
}

impl Kind for Address {
    type Point = [u8; 4];

    ghost sense = { address_sense };

    ghost laws = { Prim.search rules };

    fn open() -> Address {
        Address {
            count: 0,
            slots: [Entry::In(Block::ANY); 8],
        }
    }

    fn take(&mut self, word: &[u8], sign: Sign, value: &[u8]) -> Result<Claim, Declined> {
        if word != b"hostIP".as_slice() {
            return Ok(Claim::NotMine);
        }
        let block = block_of(value).ok_or(Declined::BadValue)?;
        match sign {
            Sign::Equal => self.add(Entry::In(block)),
            Sign::NotEqual => self.add(Entry::Out(block)),
            _ => Err(Declined::BadValue),
        }
    }

    fn on_ground(_p: &[u8; 4]) -> bool {
        true
    }

    fn contains(&self, p: &[u8; 4]) -> bool {
        all_agree(self.entries(), p)
    }

    // The chosen address decides: where it is not in both sets, none is.
    fn common(&self, other: &Address) -> Option<[u8; 4]> {
        let point = choose(self, other);
        (self.contains(&point) && other.contains(&point)).then_some(point)
    }
}

impl Printable for Address {
    ghost text = { address_text };

    fn text_len(p: &[u8; 4], room: usize) -> Option<usize> {
        within(label_of(p).len(), room)
    }

    fn write_text(p: &[u8; 4], out: &mut [u8]) -> Option<usize> {
        put(label_of(p).as_slice(), out)
    }
}
