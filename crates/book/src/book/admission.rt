// How rules come to stand in a book, and how they go.
ghost use Rattle.std.specs.Prelude.{◌≡◌, take, position};
ghost use Rattle.std.specs.Str.{bytes_eq};
ghost use Rattle.fixed.specs.Names.{spelling};
ghost use Rattle.book.specs.Books.{Takes};
ghost use Rattle.book.specs.Runs.{admit, withdraw};

use super::Book;
use kind::Kind;
use rules::read_rule;
use site::{Cause, Refusal};

impl<'m, 'a, K: Kind + Drop> Book<'m, 'a, K> {
    // Where the rule of this id stands.
    fn position(&self, id: &[u8]) -> Option<usize>
        ensures { result ≡ position (λ r. bytes_eq (spelling r.id) id.now) (take self.now.len self.now.slots.now) }
    {
        self.standing()
            .iter()
            .position(|rule| rule.id.as_bytes() == id)
    }

    // Reads one rule of the text, from a place on, and lets it stand behind the others; answers the place after it.
    pub fn admit(&mut self, text: &[u8], place: usize) -> Result<usize, Refusal>
        ensures { Takes K.Kind.sense self.old self.new (admit text.now place result) }
    {
        let (rule, end) = read_rule::<K>(self.site, text, place)?;
        if self.position(rule.id.as_bytes()).is_some() {
            return Err(Cause::IdStands.at(rule.place));
        }
        if self.len >= self.room() {
            return Err(Cause::BookFull.at(rule.place));
        }
        self.slots[self.len] = rule;
        self.len += 1;
        Ok(end)
    }

    // Takes the rule of this id out; those behind it move up.
    pub fn withdraw(&mut self, id: &[u8]) -> Result<(), Refusal>
        ensures { Takes K.Kind.sense self.old self.new (withdraw id.now result) }
    {
        let i = self.position(id).ok_or(Cause::NoSuchId.at(0))?;
        self.slots[i..self.len].rotate_left(1);
        self.len -= 1;
        Ok(())
    }
}
