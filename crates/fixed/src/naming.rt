// A name: 1 to 16 letters, digits or underscores.
ghost use Rattle.std.specs.Prelude.{◌≡◌, true};
ghost use Rattle.std.specs.List.{prefix_len};
ghost use Rattle.fixed.specs.Items.{items};
ghost use Rattle.fixed.specs.Spelling.{name_byte, is_name};

mod calls;

use crate::bounded::Table;
pub(crate) use calls::unused;

#[derive(Clone, Copy)]
pub struct Name {
    letters: Table<u8, 16>,
    ghost proper: { is_name (items letters) ≡ true },
}

pub fn is_name_byte(b: u8) -> bool
    ensures { result ≡ name_byte b }
{
    b.is_ascii_alphanumeric() || b == b'_'
}

// How many name bytes stand at the front.
pub fn name_run(bytes: &[u8]) -> usize
    ensures { result ≡ prefix_len name_byte bytes.now }
{
    bytes.iter().take_while(|b| is_name_byte(**b)).count()
}

pub fn is_name(bytes: &[u8]) -> bool
    ensures { result ≡ is_name bytes.now }
{
    (1..=16).contains(&bytes.len()) && name_run(bytes) == bytes.len()
}
