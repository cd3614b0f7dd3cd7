// What a site is made of, besides names.
ghost use Rattle.std.specs.Prelude.{◌≡◌, Some};
ghost use Rattle.std.specs.Option.{ok_or};
ghost use Rattle.site.specs.declared.refusals.Cause.TheVariants.{BadRankOrReading};
ghost use Rattle.site.specs.Fields.{coded, word_of};
ghost use Rattle.site.specs.Links.{ends, far_end, joins};

use crate::refusals::Cause;
use std::fmt;

// A link between two nodes, by their numbers. It has no direction.
#[derive(Clone, Copy, Debug, PartialEq)]
pub struct Link {
    pub a: u8,
    pub b: u8,
}

impl Link {
    // Whether a node is one of its ends.
    pub fn ends_at(self, node: u8) -> bool
        ensures { result ≡ ends self node }
    {
        self.a == node || self.b == node
    }

    // The end that is not the given one.
    pub fn far_end(self, node: u8) -> u8
        ensures { result ≡ far_end self node }
    {
        if self.a == node { self.b } else { self.a }
    }

    // Whether it joins two nodes, whichever stands first in it.
    pub fn joins(self, m: u8, n: u8) -> bool
        ensures { result ≡ joins self m n }
    {
        (self.a == m && self.b == n) || (self.a == n && self.b == m)
    }
}

// What a rule says of the classes that it does not name.
#[derive(Clone, Copy, Debug, PartialEq)]
pub enum Reading {
    Implied = 1,
    Spoken = 2,
}

impl fmt::Display for Reading {
    ghost output = { λ r. Some (word_of r) };

    fn fmt<W: fmt::Write>(&self, f: &mut fmt::Formatter<W>) -> fmt::Result {
        f.write_str(match self {
            Reading::Implied => "implied",
            Reading::Spoken => "spoken",
        })
    }
}

impl TryFrom<u8> for Reading {
    type Error = Cause;

    ghost try_from_gives = { λ byte r. r ≡ ok_or (coded byte) BadRankOrReading };

    fn try_from(byte: u8) -> Result<Reading, Cause> {
        match byte {
            1 => Ok(Reading::Implied),
            2 => Ok(Reading::Spoken),
            _ => Err(Cause::BadRankOrReading),
        }
    }
}
