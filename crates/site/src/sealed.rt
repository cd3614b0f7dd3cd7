// A sealed site: a map that was read whole and accepted. What holds of every one stands in its type.
ghost use Rattle.std.specs.Prelude.{◌<◌, length};
ghost use Rattle.site.specs.Plans.{plan_of};
ghost use Rattle.site.specs.Promises.{Proper, Distinct, TwoEnded, Unrepeated, AllLinked, Ranked};

mod lookups;
mod reading;

use crate::draft::Draft;

#[derive(Drop)]
pub struct Site {
    draft: Draft,
    ghost some_node: { 0 < length (plan_of draft).nodes },
    ghost some_class: { 0 < length (plan_of draft).classes },
    ghost some_user: { 0 < length (plan_of draft).users },
    ghost proper_nodes: { Proper (plan_of draft).nodes },
    ghost proper_classes: { Proper (plan_of draft).classes },
    ghost proper_users: { Proper (plan_of draft).users },
    ghost distinct_nodes: { Distinct (plan_of draft).nodes },
    ghost distinct_classes: { Distinct (plan_of draft).classes },
    ghost distinct_users: { Distinct (plan_of draft).users },
    ghost two_ended: { TwoEnded (length (plan_of draft).nodes) (plan_of draft).links },
    ghost unrepeated: { Unrepeated (plan_of draft).links },
    ghost all_linked: { AllLinked (length (plan_of draft).nodes) (plan_of draft).links },
    ghost ranked: { Ranked (plan_of draft).users (plan_of draft).ranks },
}
