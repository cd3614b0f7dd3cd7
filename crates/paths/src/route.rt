// What has a pattern: the pattern itself, or one with its place in a text.
ghost use Rattle.std.specs.Prelude.{◌≡◌, List};
ghost use Rattle.paths.specs.declared.pattern.Item.{Item};
ghost use Rattle.paths.specs.Patterns.{items_of};

use crate::pattern::Pattern;

pub trait Patterned {
    // The items of the pattern, first to last.
    ghost items: { Self → List Item };

    fn pattern(&self) -> &Pattern
        ensures { items_of result.now ≡ items self.now };
}

impl Patterned for Pattern {
    ghost items = { items_of };

    fn pattern(&self) -> &Pattern {
        self
    }
}

// A pattern, and the place of its first sign in the text that it was read from.
#[derive(Clone, Copy)]
pub struct Route {
    pub pattern: Pattern,
    pub place: usize,
}

impl Patterned for Route {
    ghost items = { λ r. items_of r.pattern };

    fn pattern(&self) -> &Pattern {
        &self.pattern
    }
}
