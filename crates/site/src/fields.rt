// Declaring one field of a map.
ghost use Rattle.std.specs.Prelude.{◌≡◌, Bool, cond, length, Some, None, Ok, Err, MatchResult, OnErr, slice_index};
ghost use Rattle.site.specs.Links.{joined};
ghost use Rattle.site.specs.Plans.{plan_of};
ghost use Rattle.site.specs.Fields.{field, declare, declare_link, declare_user, declare_reading, fitting};
ghost use Rattle.site.specs.Maps.{blank};

use crate::draft::Draft;
use crate::parts::{Link, Reading};
use crate::refusals::Cause;
use crate::tags::Tag;
use crate::users::User;
use fixed::{NameTable, Roster, Table};

impl Draft {
    pub(crate) fn new() -> Draft
        ensures { plan_of result ≡ blank }
    {
        Draft {
            nodes: NameTable::new(),
            links: Table::new(Link { a: 0, b: 0 }),
            classes: NameTable::new(),
            users: Roster::new(),
            reading: None,
        }
    }

    // Declares the field of a tag and its bytes; where it is refused, the map stays as it is.
    pub(crate) fn declare(&mut self, tag: u8, body: &[u8]) -> Result<(), Cause>
        ensures declared { MatchResult result
            (λ _. declare (plan_of self.old) (field tag body.now) ≡ Ok (plan_of self.new))
            (λ e. declare (plan_of self.old) (field tag body.now) ≡ Err e) }
        ensures kept { OnErr result (self.new ≡ self.old) }
    {
        match Tag::try_from(tag)? {
            Tag::Node => Ok(self.nodes.add(body)?),
            Tag::Link => self.declare_link(body),
            Tag::Class => Ok(self.classes.add(body)?),
            Tag::User => self.declare_user(body),
            Tag::Reading => self.declare_reading(body),
        }
    }

    fn declare_link(&mut self, body: &[u8]) -> Result<(), Cause>
        ensures declared { MatchResult result
            (λ _. declare_link (plan_of self.old) body.now ≡ Ok (plan_of self.new))
            (λ e. declare_link (plan_of self.old) body.now ≡ Err e) }
        ensures kept { OnErr result (self.new ≡ self.old) }
    {
        if self.links.len() >= 64 {
            return Err(Cause::TableFull);
        }
        let link = self.new_link(body).ok_or(Cause::BadLink)?;
        self.links.push(link)?;
        Ok(())
    }

    // The link that two bytes give, where they are two different declared nodes that no link joins yet.
    fn new_link(&self, body: &[u8]) -> Option<Link>
        ensures { result ≡ cond (fitting (plan_of self.now) body.now) (Some (record { a = slice_index body.now 0; b = slice_index body.now 1 })) None }
    {
        let [a, b] = body else {
            return None;
        };
        let nodes = self.nodes.len();
        let is_new = usize::from(*a) < nodes
            && usize::from(*b) < nodes
            && *a != *b
            && !are_joined(self.links.as_slice(), *a, *b);
        is_new.then_some(Link { a: *a, b: *b })
    }

    // One user more, given as a rank byte and then a name.
    fn declare_user(&mut self, body: &[u8]) -> Result<(), Cause>
        ensures declared { MatchResult result
            (λ _. declare_user (plan_of self.old) body.now ≡ Ok (plan_of self.new))
            (λ e. declare_user (plan_of self.old) body.now ≡ Err e) }
        ensures kept { OnErr result (self.new ≡ self.old) }
    {
        let [rank, name @ ..] = body else {
            return Err(Cause::NotAName);
        };
        let name = self.users.vacancy(name)?;
        if *rank == 0 {
            return Err(Cause::BadRankOrReading);
        }
        self.users.push(User { name, rank: *rank })?;
        Ok(())
    }

    fn declare_reading(&mut self, body: &[u8]) -> Result<(), Cause>
        ensures declared { MatchResult result
            (λ _. declare_reading (plan_of self.old) body.now ≡ Ok (plan_of self.new))
            (λ e. declare_reading (plan_of self.old) body.now ≡ Err e) }
        ensures kept { OnErr result (self.new ≡ self.old) }
    {
        if self.reading.is_some() {
            return Err(Cause::BadRankOrReading);
        }
        let [code] = body else {
            return Err(Cause::BadRankOrReading);
        };
        self.reading = Some(Reading::try_from(*code)?);
        Ok(())
    }
}

fn are_joined(links: &[Link], m: u8, n: u8) -> bool
    ensures { result ≡ joined links.now m n }
{
    links.iter().any(|link| link.joins(m, n))
}
