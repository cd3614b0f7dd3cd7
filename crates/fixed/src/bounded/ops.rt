// The calls of a bounded list.
ghost use Rattle.std.specs.Prelude.{◌≡◌, ◌<◌, ◌≤◌, [], ◌∷◌, ◌++◌, length, take, MatchResult};
ghost use Rattle.std.specs.List.{slice_get};
ghost use Rattle.fixed.specs.Items.{items};

use super::{Full, Table};

impl<T: Copy, const N: usize> Table<T, N> {
    // The empty list; `fill` stands in the places that hold no item yet.
    pub fn new(fill: T) -> Self
        ensures { items result ≡ [] }
    {
        Table {
            slots: [fill; N],
            len: 0,
        }
    }

    pub fn len(&self) -> usize
        ensures is { result ≡ length (items self.now) }
        ensures within { result ≤ N }
    {
        self.len
    }

    pub fn as_slice(&self) -> &[T]
        ensures { result.now ≡ items self.now }
    {
        &self.slots[..self.len]
    }

    pub fn get(&self, i: usize) -> Option<T>
        ensures { result ≡ slice_get (items self.now) i }
    {
        self.as_slice().get(i).copied()
    }

    // One item more at the end; nothing is altered where there is no room.
    pub fn push(&mut self, item: T) -> Result<(), Full>
        ensures { MatchResult result
            (λ _. (length (items self.old) < N) × (items self.new ≡ items self.old ++ item ∷ []))
            (λ _. (N ≤ length (items self.old)) × (self.new ≡ self.old)) }
    {
        if self.len >= N {
            return Err(Full);
        }
        self.slots[self.len] = item;
        self.len += 1;
        Ok(())
    }

    // Items more at the end; those for which there is no room are left out.
    pub fn extend_from_slice(&mut self, more: &[T])
        ensures { items self.new ≡ take N (items self.old ++ more.now) }
    {
        for item in more {
            let _ = self.push(*item);
        }
    }
}
