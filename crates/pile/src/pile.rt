// The checker's own pile of kinds: clock, then day, then address.
ghost use Rattle.std.specs.Prelude.{◌≡◌};
ghost use Rattle.pile.specs.Pile.{pile_sense, PileLaws};

use address::Address;
use clock::Clock;
use day::Day;
use kind::{Both, Kind, pair};

pub type Pile = Both<Both<Clock, Day>, Address>;

// The open condition of the pile, whose laws hold.
pub fn open_pile() -> Pile
    ensures whole { result ≡ pile_sense.everywhere }
    ensures laws { PileLaws }
{
    pair(pair(Clock::open(), Day::open()), Address::open())
}
