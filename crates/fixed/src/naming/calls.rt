// A name from the bytes that spell it, and back.
ghost use Rattle.std.specs.Prelude.{◌≡◌, true, if◌then◌else◌, Some, None};
ghost use Rattle.std.specs.Option.{option_map};
ghost use Rattle.fixed.specs.Names.{spelling};
ghost use Rattle.fixed.specs.Spelling.{is_name};

use super::{Name, is_name};
use crate::bounded::Table;
use std::{fmt, str};

impl Name {
    // The name that the bytes spell, if they spell one.
    pub fn from_bytes(bytes: &[u8]) -> Option<Name>
        ensures { option_map spelling result ≡ (if is_name bytes.now then Some bytes.now else None) }
    {
        if is_name(bytes) {
            Some(spelled(bytes))
        } else {
            None
        }
    }

    pub fn as_bytes(&self) -> &[u8]
        ensures { result.now ≡ spelling self.now }
    {
        self.letters.as_slice()
    }

    pub fn as_str(&self) -> &str
        ensures { result.now ≡ spelling self.now }
    {
        str::from_utf8(self.as_bytes()).unwrap()
    }
}

impl fmt::Display for Name {
    ghost output = { λ n. Some (spelling n) };

    fn fmt<W: fmt::Write>(&self, f: &mut fmt::Formatter<W>) -> fmt::Result {
        f.write_str(self.as_str())
    }
}

// What fills the places of a table that hold no name yet.
pub(crate) fn unused() -> Name {
    spelled(b"_")
}

fn spelled(bytes: &[u8]) -> Name
    requires { is_name bytes.now ≡ true }
    ensures { spelling result ≡ bytes.now }
{
    let mut letters = Table::new(0);
    letters.extend_from_slice(bytes);
    Name { letters }
}
