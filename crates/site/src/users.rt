// A user of a site.
ghost use Rattle.std.specs.Prelude.{◌≡◌};
ghost use Rattle.fixed.specs.Names.{spelling};
ghost use Rattle.site.specs.Users.{called};

use fixed::{Name, Named};

// The smaller the rank, the weightier its rules.
#[derive(Clone, Copy)]
pub struct User {
    pub name: Name,
    pub rank: u8,
}

impl Named for User {
    ghost called = { called };

    fn unused() -> User {
        User {
            name: Name::unused(),
            rank: 0,
        }
    }

    fn name(&self) -> &Name {
        &self.name
    }
}
