// A line that is put together before it is written, so that one write has all of it.
ghost use Rattle.std.specs.Prelude.{◌≡◌, [], ◌++◌, take};
ghost use Rattle.fixed.specs.Items.{items};

use fixed::Table;
use std::fmt;

// Kept in place, so that want of memory can't keep a line back.
#[derive(Drop)]
pub(crate) struct Line<const N: usize> {
    text: Table<u8, N>,
}

impl<const N: usize> Line<N> {
    pub(crate) fn new() -> Line<N>
        ensures { items result.text ≡ [] }
    {
        Line {
            text: Table::new(0),
        }
    }

    pub(crate) fn as_slice(&self) -> &[u8]
        ensures { result.now ≡ items self.now.text }
    {
        self.text.as_slice()
    }
}

// Takes any text; what is over N bytes is cut, so N is to be the longest that a line can be.
impl<const N: usize> fmt::Write for Line<N> {
    ghost write_str_gives = { λ s bytes t. items t.text ≡ take N (items s.text ++ bytes) };

    fn write_str(&mut self, s: &str) -> fmt::Result {
        self.text.extend_from_slice(s.as_bytes());
        Ok(())
    }
}
