// Why something is refused, with the number of each cause, and where.
ghost use Rattle.std.specs.Prelude.{◌≡◌, ◌++◌, Some, codes, decimal};
ghost use Rattle.site.specs.Refusals.{number, layer_of, raised};

use fixed::{Full, NameFault};
use std::fmt;

#[derive(Clone, Copy, Debug, PartialEq)]
pub enum Cause {
    CutShort = 1,
    UnknownTag = 2,
    NotAName = 3,
    DeclaredBefore = 4,
    TableFull = 5,
    BadLink = 6,
    Unsealable = 7,
    BadRankOrReading = 8,
    TextEnds = 9,
    Unexpected = 10,
    OverLimit = 11,
    Undeclared = 12,
    NoKind = 13,
    BadValue = 14,
    DoubledBound = 15,
    TooManyPaths = 16,
    NoPath = 17,
    IdStands = 18,
    BookFull = 19,
    NoSuchId = 20,
    NoRoom = 21,
    NoPortOrClass = 22,
    OffGround = 23,
    NotTouched = 24,
}

// The part of the checker that finds a cause.
#[derive(Clone, Copy, Debug, PartialEq)]
pub enum Layer {
    Map,
    Words,
    Rule,
    Kind,
    Paths,
    Book,
}

// A cause, and the byte at which it was found.
#[derive(Clone, Copy, Debug, PartialEq)]
pub struct Refusal {
    pub cause: Cause,
    pub place: usize,
}

impl Cause {
    pub fn number(self) -> u8
        ensures { result ≡ number self }
    {
        self as u8
    }

    pub fn layer(self) -> Layer
        ensures { result ≡ layer_of self }
    {
        match self {
            Cause::CutShort
            | Cause::UnknownTag
            | Cause::NotAName
            | Cause::DeclaredBefore
            | Cause::TableFull
            | Cause::BadLink
            | Cause::Unsealable
            | Cause::BadRankOrReading => Layer::Map,
            Cause::TextEnds | Cause::Unexpected => Layer::Words,
            Cause::OverLimit | Cause::Undeclared => Layer::Rule,
            Cause::NoKind | Cause::BadValue | Cause::DoubledBound => Layer::Kind,
            Cause::TooManyPaths | Cause::NoPath => Layer::Paths,
            Cause::IdStands
            | Cause::BookFull
            | Cause::NoSuchId
            | Cause::NoRoom
            | Cause::NoPortOrClass
            | Cause::OffGround
            | Cause::NotTouched => Layer::Book,
        }
    }

    // This cause, found at a byte.
    pub fn at(self, place: usize) -> Refusal
        ensures { result ≡ record { cause = self; place = place } }
    {
        Refusal { cause: self, place }
    }
}

impl Refusal {
    pub fn number(self) -> u8
        ensures { result ≡ number self.cause }
    {
        self.cause.number()
    }

    pub fn layer(self) -> Layer
        ensures { result ≡ layer_of self.cause }
    {
        self.cause.layer()
    }
}

impl fmt::Display for Refusal {
    ghost output = { λ r. Some (codes "refused " ++ decimal (number r.cause) ++ codes " at " ++ decimal r.place) };

    fn fmt<W: fmt::Write>(&self, f: &mut fmt::Formatter<W>) -> fmt::Result {
        write!(f, "refused {} at {}", self.number(), self.place)
    }
}

// A list of a map without room, as a cause.
impl From<Full> for Cause {
    ghost use Rattle.site.specs.declared.refusals.Cause.TheVariants.{TableFull};

    ghost from_gives = { λ _ c. c ≡ TableFull };

    fn from(_full: Full) -> Cause {
        Cause::TableFull
    }
}

// What a table of names says of a name, as a cause.
impl From<NameFault> for Cause {
    ghost from_gives = { λ e c. c ≡ raised e };

    fn from(fault: NameFault) -> Cause {
        match fault {
            NameFault::NotAName => Cause::NotAName,
            NameFault::Repeated => Cause::DeclaredBefore,
            NameFault::Full => Cause::TableFull,
        }
    }
}
