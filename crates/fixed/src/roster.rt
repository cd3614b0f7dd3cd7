// What goes by a name, numbered from 0 in the order in which it was added.
ghost use Rattle.std.specs.Prelude.{◌≡◌, ℕ, ◌<◌, ◌≤◌, List, [], ◌∷◌, ◌++◌, map, length, Ok, Err, MatchOption, MatchResult, OnErr};
ghost use Rattle.std.specs.List.{slice_get};
ghost use Rattle.fixed.specs.Names.{spelling};
ghost use Rattle.fixed.specs.Rosters.{held, names, number_of, enrol, First, Absent};

use crate::bounded::{Full, Table};
use crate::naming;
use crate::naming::Name;

// What goes by a name.
pub trait Named: Copy {
    ghost called: { Self → List ℕ };

    // What fills the places of a roster that hold nothing yet.
    fn unused() -> Self;

    fn name(&self) -> &Name
        ensures { spelling result.now ≡ called self.now };
}

impl Named for Name {
    ghost called = { spelling };

    fn unused() -> Name {
        naming::unused()
    }

    fn name(&self) -> &Name {
        self
    }
}

#[derive(Clone, Copy)]
pub struct Roster<T: Copy, const N: usize> {
    list: Table<T, N>,
}

// A table of names alone.
pub type NameTable<const N: usize> = Roster<Name, N>;

// Why something cannot be added; where two causes apply, the earlier one counts.
#[derive(Clone, Copy, Debug, PartialEq)]
pub enum NameFault {
    NotAName,
    Repeated,
    Full,
}

impl From<Full> for NameFault {
    ghost use Rattle.fixed.specs.declared.roster.NameFault.TheVariants.{Full};

    ghost from_gives = { λ _ e. e ≡ Full };

    fn from(_full: Full) -> NameFault {
        NameFault::Full
    }
}

impl<T: Named, const N: usize> Roster<T, N> {
    pub fn new() -> Self
        ensures { held result ≡ [] }
    {
        Roster {
            list: Table::new(T::unused()),
        }
    }

    pub fn len(&self) -> usize
        ensures is { result ≡ length (held self.now) }
        ensures within { result ≤ N }
    {
        self.list.len()
    }

    // First to last.
    pub fn as_slice(&self) -> &[T]
        ensures { result.now ≡ held self.now }
    {
        self.list.as_slice()
    }

    // What stands under a number.
    pub fn get(&self, number: usize) -> Option<T>
        ensures { result ≡ slice_get (held self.now) number }
    {
        self.list.get(number)
    }

    // The least number under which a name stands.
    pub fn number(&self, name: &[u8]) -> Option<usize>
        ensures is { result ≡ number_of name.now (names T.called self.now) }
        ensures least { MatchOption result (Absent name.now (names T.called self.now)) (First name.now (names T.called self.now)) }
    {
        self.as_slice()
            .iter()
            .position(|each| each.name().as_bytes() == name)
    }

    // The name that bytes spell, where one more can be added under it.
    pub fn vacancy(&self, name: &[u8]) -> Result<Name, NameFault>
        ensures { MatchResult result
            (λ n. (spelling n ≡ name.now) × (enrol N (names T.called self.now) name.now ≡ Ok (names T.called self.now ++ name.now ∷ [])))
            (λ e. enrol N (names T.called self.now) name.now ≡ Err e) }
    {
        let spelled = Name::from_bytes(name).ok_or(NameFault::NotAName)?;
        if self.number(name).is_some() {
            return Err(NameFault::Repeated);
        }
        if self.len() >= N {
            return Err(NameFault::Full);
        }
        Ok(spelled)
    }

    // One more, under the next number; nothing is altered where there is no room.
    pub fn push(&mut self, item: T) -> Result<(), Full>
        ensures { MatchResult result
            (λ _. (length (held self.old) < N) × (held self.new ≡ held self.old ++ item ∷ []))
            (λ _. (N ≤ length (held self.old)) × (self.new ≡ self.old)) }
    {
        self.list.push(item)
    }
}

impl<const N: usize> Roster<Name, N> {
    // One name more, under the next number; where it is refused, the table stays as it is.
    pub fn add(&mut self, name: &[u8]) -> Result<(), NameFault>
        ensures added { MatchResult result
            (λ _. enrol N (names spelling self.old) name.now ≡ Ok (names spelling self.new))
            (λ e. enrol N (names spelling self.old) name.now ≡ Err e) }
        ensures kept { OnErr result (self.new ≡ self.old) }
    {
        let name = self.vacancy(name)?;
        self.push(name)?;
        Ok(())
    }
}
