// Blocks of addresses: patterns of four parts, of which only stars follow a star.
ghost use Rattle.std.specs.Prelude.{◌≡◌, ◌<◌, Some, None, MatchOption};
ghost use Rattle.address.specs.Blocks.{part_at, at_part, covers, byte_of, with_number, with_text, cut, block_of};

use kind::number_of;

// The addresses whose first parts, as many as the depth, are the given numbers. Five bytes: four `Option<u8>` would be eight.
#[derive(Clone, Copy)]
pub struct Block {
    pub depth: u8,
    pub parts: [u8; 4],
}

impl Block {
    // All addresses.
    pub(crate) const ANY: Block = Block {
        depth: 0,
        parts: [0; 4],
    };

    // The number at a part, if no star stands there.
    pub(crate) fn number(&self, part: usize) -> Option<u8>
        ensures { result ≡ part_at self.now part }
    {
        self.parts
            .get(part)
            .copied()
            .filter(|_| part < usize::from(self.depth))
    }

    fn at_part(&self, p: &[u8; 4], part: usize) -> bool
        requires { part < 4 }
        ensures { result ≡ at_part self.now p.now part }
    {
        self.number(part).is_none_or(|n| n == p[part])
    }

    // Whether an address is in the block.
    pub(crate) fn covers(&self, p: &[u8; 4]) -> bool
        ensures { result ≡ covers self.now p.now }
    {
        (0..4).all(|part| self.at_part(p, part))
    }

    // The block with a number at a place, if the first star stands there.
    fn with_number(mut self, place: usize, n: u8) -> Option<Block>
        requires { place < 4 }
        ensures { result ≡ with_number self place n }
    {
        if usize::from(self.depth) != place {
            return None;
        }
        self.depth += 1;
        self.parts[place] = n;
        Some(self)
    }

    // The block with the part that a text writes at a place, where a star stands so far.
    fn with_text(self, place: usize, text: &[u8]) -> Option<Block>
        requires { place < 4 }
        ensures { result ≡ with_text self place text.now }
    {
        if text == b"*".as_slice() {
            return Some(self);
        }
        self.with_number(place, byte_of(text)?)
    }
}

// A number up to 255 in one to three digits.
fn byte_of(text: &[u8]) -> Option<u8>
    ensures { result ≡ byte_of text.now }
{
    if text.len() > 3 {
        return None;
    }
    u8::try_from(number_of(text)?).ok()
}

// The text before the first dot, and the text after it.
fn cut(text: &[u8]) -> Option<(&[u8], &[u8])>
    ensures { MatchOption result (cut text.now ≡ None) (λ c. cut text.now ≡ Some (c.0.now, c.1.now)) }
{
    let dot = text.iter().position(|b| *b == b'.')?;
    Some((&text[..dot], &text[dot + 1..]))
}

// The block that four parts joined by dots write.
pub(crate) fn block_of(text: &[u8]) -> Option<Block>
    ensures { result ≡ block_of text.now }
{
    let mut block = Block::ANY;
    let mut rest = text;
    // A loop, since a `try_fold` would carry the block and the rest as a pair.
    for place in 0..3 {
        let (part, after) = cut(rest)?;
        block = block.with_text(place, part)?;
        rest = after;
    }
    block.with_text(3, rest)
}
