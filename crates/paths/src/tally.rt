// The tally of a search: how many partial paths it has met, and the ports of those that match.
ghost use Rattle.std.specs.Prelude.{◌≡◌, ◌+◌, ◌<◌, ◌≤◌, cond, MatchResult, bit_or};

use crate::ports::PortSet;

// There is one partial path too many.
#[derive(Clone, Copy)]
pub(crate) struct OverBudget;

#[derive(Drop)]
pub(crate) struct Tally {
    count: u32,
    found: PortSet,
    ghost within: { count ≤ 65536 },
}

impl Tally {
    pub(crate) fn new() -> Tally
        ensures count { result.count ≡ 0 }
        ensures found { result.found.bits ≡ 0 }
    {
        Tally {
            count: 0,
            found: PortSet::empty(),
        }
    }

    pub(crate) fn found(&self) -> PortSet
        ensures { result ≡ self.now.found }
    {
        self.found
    }

    // One path more, which touches the ports `used` and matches, or does not.
    pub(crate) fn add(&mut self, is_match: bool, used: PortSet) -> Result<(), OverBudget>
        ensures { MatchResult result (λ _. (self.old.count < 65536) × (self.new.count ≡ self.old.count + 1) × (self.new.found.bits ≡ cond is_match (bit_or self.old.found.bits used.bits) self.old.found.bits)) (λ _. 65536 ≤ self.old.count) }
    {
        if self.count >= 65536 {
            return Err(OverBudget);
        }
        self.count += 1;
        if is_match {
            self.found = self.found.union(used);
        }
        Ok(())
    }
}
