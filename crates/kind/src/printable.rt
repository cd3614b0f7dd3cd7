// Kinds that can write a point as text.
ghost use Rattle.std.specs.Prelude.{◌≡◌, ℕ, List, length};
ghost use Rattle.kind.specs.Texts.{shown, Within, Printed};

use crate::Kind;

pub trait Printable: Kind {
    ghost text: { Self.Point → List ℕ };

    // How long a point's text is, if it is within the room.
    fn text_len(p: &Self::Point, room: usize) -> Option<usize>
        ensures { Within room (shown Self.Kind.sense text p.now) result };

    // Writes a point's text to the front of `out`; where it does not fit, `out` stays as it was.
    fn write_text(p: &Self::Point, out: &mut [u8]) -> Option<usize>
        ensures { Printed (shown Self.Kind.sense text p.now) out.old result out.new };
}

// A length, if it is within the room.
pub fn within(len: usize, room: usize) -> Option<usize>
    ensures { (t : List ℕ) → length t ≡ len → Within room t result }
{
    (len <= room).then_some(len)
}

// Writes a text to the front of `out` if it fits.
pub fn put(text: &[u8], out: &mut [u8]) -> Option<usize>
    ensures { Printed text.now out.old result out.new }
{
    let (front, _) = out.split_at_mut_checked(text.len())?;
    front.copy_from_slice(text);
    Some(text.len())
}
