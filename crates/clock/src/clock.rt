// Windows of seconds of the day, under the word `time`.
ghost use Rattle.std.specs.Prelude.{◌≡◌, ◌&&◌, find};
ghost use Rattle.clock.specs.Times.{clock_text};
ghost use Rattle.clock.specs.Windows.{from, to, in_window, BoundSet, clock_sense};
ghost use Rattle.std.proofs.Common.{rules};

use crate::times::{DAY, second_of, text_of};
use kind::{Claim, Declined, Kind, Printable, Sign, put, within};

// A window of the day; a missing bound leaves that end open.
#[derive(Clone, Copy)]
pub struct Clock {
    lower: Option<u32>,
    upper: Option<u32>,
}

impl Clock {
    fn from(&self) -> u32
        ensures { result ≡ from self.now }
    {
        self.lower.unwrap_or(0)
    }

    fn to(&self) -> u32
        ensures { result ≡ to self.now }
    {
        self.upper.unwrap_or(DAY - 1)
    }
}

// Sets a bound that does not stand yet.
fn set_bound(bound: &mut Option<u32>, second: u32) -> Result<Claim, Declined>
    ensures { BoundSet bound.old second result bound.new }
{
    if bound.is_some() {
        return Err(Declined::Doubled);
    }
    *bound = Some(second);
    Ok(Claim::Taken)
}

impl Kind for Clock {
    type Point = u32;

    ghost sense = { clock_sense };

    ghost laws = { Prim.search rules };

    fn open() -> Clock {
        Clock {
            lower: None,
            upper: None,
        }
    }

    fn take(&mut self, word: &[u8], sign: Sign, value: &[u8]) -> Result<Claim, Declined> {
        if word != b"time".as_slice() {
            return Ok(Claim::NotMine);
        }
        let second = second_of(value).ok_or(Declined::BadValue)?;
        match sign {
            Sign::AtLeast => set_bound(&mut self.lower, second),
            Sign::AtMost => set_bound(&mut self.upper, second),
            _ => Err(Declined::BadValue),
        }
    }

    fn on_ground(p: &u32) -> bool {
        *p < DAY
    }

    fn contains(&self, p: &u32) -> bool {
        let (from, to) = (self.from(), self.to());
        Self::on_ground(p)
            && if from <= to {
                (from..=to).contains(p)
            } else {
                from <= *p || *p <= to
            }
    }

    // The least common second begins the day or one of the two windows.
    fn common(&self, other: &Clock) -> Option<u32> {
        let (a, b) = (self.from(), other.from());
        first_in_both(self, other, &[0, a.min(b), a.max(b)])
    }
}

// The first of some seconds that is in both windows.
fn first_in_both(a: &Clock, b: &Clock, seconds: &[u32]) -> Option<u32>
    ensures { result ≡ find (λ p. in_window a.now p && in_window b.now p) seconds.now }
{
    seconds
        .iter()
        .copied()
        .find(|p| a.contains(p) && b.contains(p))
}

impl Printable for Clock {
    ghost text = { clock_text };

    fn text_len(p: &u32, room: usize) -> Option<usize> {
        within(if Self::on_ground(p) { 7 } else { 0 }, room)
    }

    fn write_text(p: &u32, out: &mut [u8]) -> Option<usize> {
        if Self::on_ground(p) {
            put(&text_of(*p), out)
        } else {
            Some(0)
        }
    }
}
