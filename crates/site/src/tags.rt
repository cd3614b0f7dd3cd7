// What a field of a map declares, by its tag.
ghost use Rattle.std.specs.Prelude.{◌≡◌};
ghost use Rattle.site.specs.Tags.{tagged};

use crate::refusals::Cause;

#[derive(Clone, Copy, Debug, PartialEq)]
pub enum Tag {
    Node,
    Link,
    Class,
    User,
    Reading,
}

impl TryFrom<u8> for Tag {
    type Error = Cause;

    ghost try_from_gives = { λ byte r. r ≡ tagged byte };

    fn try_from(byte: u8) -> Result<Tag, Cause> {
        match byte {
            1 => Ok(Tag::Node),
            2 => Ok(Tag::Link),
            3 => Ok(Tag::Class),
            4 => Ok(Tag::User),
            5 => Ok(Tag::Reading),
            _ => Err(Cause::UnknownTag),
        }
    }
}
