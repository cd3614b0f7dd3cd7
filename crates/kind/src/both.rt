// Two kinds side by side: a point is a pair, and both halves must hold.
ghost use Rattle.std.specs.Prelude.{◌≡◌};
ghost use Rattle.kind.specs.Sense.{Laws};
ghost use Rattle.kind.specs.Pairs.{pair_sense, pair_text};
ghost use Rattle.kind.specs.PairsLemmas.{pair_laws};

use crate::{Claim, Declined, Kind, Printable, Sign};

#[derive(Clone, Copy, Drop)]
pub struct Both<A, B> {
    pub first: A,
    pub second: B,
}

impl<A: Kind, B: Kind> Kind for Both<A, B> {
    type Point = (A::Point, B::Point);

    ghost sense = { pair_sense A.Kind.sense B.Kind.sense };

    ghost laws = { pair_laws A.Kind.sense B.Kind.sense A.Kind.laws B.Kind.laws };

    fn open() -> Both<A, B> {
        Both {
            first: A::open(),
            second: B::open(),
        }
    }

    fn take(&mut self, word: &[u8], sign: Sign, value: &[u8]) -> Result<Claim, Declined> {
        match self.first.take(word, sign, value)? {
            Claim::Taken => Ok(Claim::Taken),
            Claim::NotMine => self.second.take(word, sign, value),
        }
    }

    fn on_ground(p: &(A::Point, B::Point)) -> bool {
        A::on_ground(&p.0) && B::on_ground(&p.1)
    }

    fn contains(&self, p: &(A::Point, B::Point)) -> bool {
        self.first.contains(&p.0) && self.second.contains(&p.1)
    }

    fn common(&self, other: &Both<A, B>) -> Option<(A::Point, B::Point)> {
        let first = self.first.common(&other.first)?;
        let second = self.second.common(&other.second)?;
        Some((first, second))
    }
}

// Puts two conditions of two kinds together; a pair of lawful kinds is a lawful kind.
pub fn pair<A: Kind, B: Kind>(first: A, second: B) -> Both<A, B>
    ensures made { result ≡ record { first = first; second = second } }
    ensures lawful { Laws (pair_sense A.Kind.sense B.Kind.sense) }
{
    Both { first, second }
}

impl<A: Printable, B: Printable> Printable for Both<A, B> {
    ghost text = { pair_text A.Kind.sense B.Kind.sense A.Printable.text B.Printable.text };

    fn text_len(p: &(A::Point, B::Point), room: usize) -> Option<usize> {
        if !Self::on_ground(p) {
            return Some(0);
        }
        let first = A::text_len(&p.0, room)?;
        let left = (room - first).checked_sub(1)?;
        let second = B::text_len(&p.1, left)?;
        Some(first + 1 + second)
    }

    // Once the whole text is known to fit, neither half can fail.
    fn write_text(p: &(A::Point, B::Point), out: &mut [u8]) -> Option<usize> {
        let len = Self::text_len(p, out.len())?;
        if Self::on_ground(p) {
            let first = A::write_text(&p.0, out)?;
            out[first] = b' ';
            let _ = B::write_text(&p.1, &mut out[first + 1..])?;
        }
        Some(len)
    }
}
