// A search: over which ways, and for the paths of which pattern.
use crate::pattern::Pattern;
use crate::roads::Roads;

#[derive(Clone, Copy)]
pub(crate) struct Search<'s> {
    pub(crate) roads: &'s Roads,
    pub(crate) pattern: &'s Pattern,
}
