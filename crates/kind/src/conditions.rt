// A kind of condition: its points, the sets its conditions stand for, and what it can be asked.
ghost use Rattle.std.specs.Prelude.{◌≡◌, true, false};
ghost use Rattle.kind.specs.Taking.{after, reply};
ghost use Rattle.kind.specs.Sense.{Sense, Laws, Commons, Meet, Apart};

use crate::{Claim, Declined, Sign};

pub trait Kind: Sized {
    type Point: Drop;

    ghost sense: { Sense Self Self.Point };

    // The condition that holds on the whole ground.
    fn open() -> Self
        ensures { result ≡ sense.everywhere };

    // Takes a comparison on, or says why not and stays as it was.
    fn take(&mut self, word: &[u8], sign: Sign, value: &[u8]) -> Result<Claim, Declined>
        ensures reply { result ≡ reply (sense.taken self.old word.now sign value.now) }
        ensures after { self.new ≡ after self.old (sense.taken self.old word.now sign value.now) };

    // Whether a point is one of this kind's.
    fn on_ground(p: &Self::Point) -> bool
        ensures { result ≡ sense.on_ground p.now };

    // Whether the condition holds at a point.
    fn contains(&self, p: &Self::Point) -> bool
        ensures { result ≡ sense.holds self.now p.now };

    // A point at which both conditions hold, or none where there is none.
    fn common(&self, other: &Self) -> Option<Self::Point>
        ensures { Commons sense self.now other.now result };

    ghost laws: { Laws sense };
}

// Whether some point is in the sets of both conditions.
pub fn meets<K: Kind>(a: &K, b: &K) -> bool
    ensures meets { result ≡ true → Meet K.Kind.sense a.now b.now }
    ensures apart { result ≡ false → Apart K.Kind.sense a.now b.now }
{
    a.common(b).is_some()
}
