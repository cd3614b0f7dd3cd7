// Names that may be missing, in a text.
ghost use Rattle.std.specs.Prelude.{Some};
ghost use Rattle.sheet.specs.Sheets.{shown};

use fixed::Name;
use std::fmt;

// A name, or nothing.
#[derive(Clone, Copy)]
pub(crate) struct Shown(pub Option<Name>);

impl fmt::Display for Shown {
    ghost output = { λ s. Some (shown s.0) };

    fn fmt<W: fmt::Write>(&self, f: &mut fmt::Formatter<W>) -> fmt::Result {
        match self.0 {
            Some(name) => f.write_str(name.as_str()),
            None => Ok(()),
        }
    }
}
