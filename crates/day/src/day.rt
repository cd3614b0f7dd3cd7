// Sets of days of the week, under the word `day`.
ghost use Rattle.std.specs.Prelude.{◌≡◌};
ghost use Rattle.day.specs.Days.{day_name, day_of, stands_to, narrowed, day_sense};
ghost use Rattle.kind.specs.Texts.{shown};
ghost use Rattle.std.proofs.Common.{rules};

use kind::{Claim, Declined, Kind, Printable, Sign, put, within};
use std::array;

// The days that are left of the week, from Monday on.
#[derive(Clone, Copy)]
pub struct Day {
    days: [bool; 7],
}

// The names of the days, from Monday, day 0, to Sunday, day 6.
const NAMES: [&str; 7] = [
    "Monday",
    "Tuesday",
    "Wednesday",
    "Thursday",
    "Friday",
    "Saturday",
    "Sunday",
];

// The name of a day, and nothing for another number.
fn name_of(day: u8) -> &'static [u8]
    ensures { result.now ≡ shown day_sense day_name day }
{
    NAMES
        .get(usize::from(day))
        .map_or(b"".as_slice(), |name| name.as_bytes())
}

// The day of a name.
fn day_of(name: &[u8]) -> Option<u8>
    ensures { result ≡ day_of name.now }
{
    (0..7).find(|day| name == name_of(*day))
}

// Whether a day stands to another as a sign says.
fn stands_to(sign: Sign, day: u8, other: u8) -> bool
    ensures { result ≡ stands_to sign day other }
{
    match sign {
        Sign::Equal => day == other,
        Sign::NotEqual => day != other,
        Sign::AtLeast => day >= other,
        Sign::AtMost => day <= other,
    }
}

// Of the days left, those that a comparison leaves.
fn narrow(days: [bool; 7], sign: Sign, other: u8) -> [bool; 7]
    ensures { result ≡ narrowed sign other days }
{
    array::from_fn(|day| days[day] && stands_to(sign, day as u8, other))
}

impl Kind for Day {
    // A number: a type of seven days would ask more of callers.
    type Point = u8;

    ghost sense = { day_sense };

    ghost laws = { Prim.search rules };

    fn open() -> Day {
        Day { days: [true; 7] }
    }

    fn take(&mut self, word: &[u8], sign: Sign, value: &[u8]) -> Result<Claim, Declined> {
        if word != b"day".as_slice() {
            return Ok(Claim::NotMine);
        }
        let day = day_of(value).ok_or(Declined::BadValue)?;
        self.days = narrow(self.days, sign, day);
        Ok(Claim::Taken)
    }

    fn on_ground(p: &u8) -> bool {
        *p < 7
    }

    fn contains(&self, p: &u8) -> bool {
        Self::on_ground(p) && self.days[usize::from(*p)]
    }

    fn common(&self, other: &Day) -> Option<u8> {
        (0..7).find(|day| self.contains(day) && other.contains(day))
    }
}

impl Printable for Day {
    ghost text = { day_name };

    fn text_len(p: &u8, room: usize) -> Option<usize> {
        within(name_of(*p).len(), room)
    }

    fn write_text(p: &u8, out: &mut [u8]) -> Option<usize> {
        put(name_of(*p), out)
    }
}
