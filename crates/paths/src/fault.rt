// A fault of the search, as a cause of refusal.
ghost use Rattle.std.specs.Prelude.{◌≡◌};
ghost use Rattle.paths.specs.Faults.{cause_of};

use crate::finding::Fault;
use site::Cause;

impl From<Fault> for Cause {
    ghost from_gives = { λ e c. c ≡ cause_of e };

    fn from(fault: Fault) -> Cause {
        match fault {
            Fault::TooMany => Cause::TooManyPaths,
            Fault::NoPath => Cause::NoPath,
        }
    }
}
