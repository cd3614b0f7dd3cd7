// What a rule says of a traffic class, by the reading of the site.
ghost use Rattle.std.specs.Prelude.{◌≡◌};
ghost use Rattle.rules.specs.Rules.{rule_of};
ghost use Rattle.rules.specs.Sayings.{saying, Said};

use crate::rule::Rule;
use sections::Action;
use site::Reading;

// What a rule says of a class.
#[derive(Clone, Copy, Debug, PartialEq)]
pub enum Saying {
    Permit,
    Deny,
    Silent,
}

impl<K> Rule<K> {
    // Implied: a permitting action permits the target classes, and every other class is denied; a deny rule denies all.
    // Spoken: the target classes are permitted or denied, and the rule is silent on the rest.
    pub fn says(&self, reading: Reading, class: u8) -> Saying
        ensures is { result ≡ saying reading (rule_of self.now) class }
        ensures law { Said reading (rule_of self.now) class result }
    {
        match (reading, self.action) {
            (Reading::Implied, Action::Deny) => Saying::Deny,
            (Reading::Implied, _) if self.target.contains(class) => Saying::Permit,
            (Reading::Implied, _) => Saying::Deny,
            (Reading::Spoken, Action::Deny) if self.target.contains(class) => Saying::Deny,
            (Reading::Spoken, _) if self.target.contains(class) => Saying::Permit,
            (Reading::Spoken, _) => Saying::Silent,
        }
    }
}
