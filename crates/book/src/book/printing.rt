// The line of an entry.
ghost use Rattle.lines.specs.Lines.{Lined};
ghost use Rattle.book.specs.Books.{map_of, rules};

use super::Book;
use kind::Printable;
use lines::write_line;
use pairs::Entry;
use site::Refusal;

impl<'m, 'a, K: Printable + Drop> Book<'m, 'a, K> {
    // Writes the line of an entry of this book to the front of a buffer, and tells how long it is.
    pub fn write_entry(&self, entry: &Entry<K::Point>, out: &mut [u8]) -> Result<usize, Refusal>
        ensures { Lined (map_of self.now) K.Kind.sense K.Printable.text (rules self.now) entry.now out.old result out.new }
    {
        write_line(self.site, self.standing(), entry, out)
    }
}
