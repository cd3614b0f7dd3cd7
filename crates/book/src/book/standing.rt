// An empty book, and the rules that stand in one.
ghost use Rattle.std.specs.Prelude.{◌≡◌, min, [], length, take};
ghost use Rattle.book.specs.Books.{map_of, rules, room, Led};
ghost use Rattle.book.specs.Runs.{OneAnswer};

use super::Book;
use kind::Kind;
use rules::Rule;
use site::Site;

impl<'m, 'a, K: Kind + Drop> Book<'m, 'a, K> {
    // An empty book; it has room for as many rules as places are lent, and for 64 at most.
    pub fn new(site: &'m Site, slots: &'a mut [Rule<K>]) -> Book<'m, 'a, K>
        ensures starts { Led K.Kind.sense [] result }
        ensures map { result.site.now ≡ site.now }
        ensures fixed { OneAnswer (map_of result) K.Kind.sense }
        ensures room { room result ≡ min 64 (length slots.old) }
    {
        Book {
            site,
            slots,
            len: 0,
        }
    }

    // How many rules stand.
    pub fn len(&self) -> usize
        ensures { result ≡ length (rules self.now) }
    {
        self.standing().len()
    }

    // The rules that stand.
    pub(super) fn standing(&self) -> &[Rule<K>]
        ensures { result.now ≡ take self.now.len self.now.slots.now }
    {
        &self.slots[..self.len]
    }

    // How many rules the book can hold.
    pub(super) fn room(&self) -> usize
        ensures { result ≡ room self.now }
    {
        self.slots.len().min(64)
    }
}
