// What can be asked of a book; no question alters it.
ghost use Rattle.std.specs.Prelude.{List, IfOk};
ghost use Rattle.book.specs.Books.{map_of, Led, Takes};
ghost use Rattle.book.specs.Runs.{Step, report, decide, route, Reported, ReportedByPaths, Decided, DecidedByPaths, Routed};

use super::Book;
use crate::routing;
use deciding::{Decision, settle};
use kind::Kind;
use pairs::{Entry, Spot, Totals, check_place, list_pairs};
use paths::Port;
use site::{Cause, Refusal};

impl<'m, 'a, K: Kind + Drop> Book<'m, 'a, K> {
    // Writes the contradicting pairs to the front of the list, by first and then by second position.
    pub fn report(&self, list: &mut [Entry<K::Point>]) -> Result<Totals, Refusal>
        ensures takes { Takes K.Kind.sense self.now self.now (report list.old result list.new) }
        ensures law { IfOk result (λ t. (h : List (Step K.Point)) → Led K.Kind.sense h self.now → Reported (map_of self.now) K.Kind.sense h list.new t.pairs t.unsettled) }
        ensures by_paths { IfOk result (λ t. (h : List (Step K.Point)) → Led K.Kind.sense h self.now → ReportedByPaths (map_of self.now) K.Kind.sense h list.new t.pairs) }
    {
        list_pairs(self.site, self.standing(), list)
    }

    // What the standing rules decide at a port, a class and a point.
    pub fn decide(&self, port: Port, class: u8, point: &K::Point) -> Result<Decision, Refusal>
        ensures takes { Takes K.Kind.sense self.now self.now (decide port class point.now result) }
        ensures law { IfOk result (λ d. (h : List (Step K.Point)) → Led K.Kind.sense h self.now → Decided (map_of self.now) K.Kind.sense h port class point.now d) }
        ensures by_paths { IfOk result (λ d. (h : List (Step K.Point)) → Led K.Kind.sense h self.now → DecidedByPaths (map_of self.now) K.Kind.sense h port class point.now d) }
    {
        let spot = Spot { port, class, point };
        check_place::<K>(self.site, &spot)?;
        Ok(settle(self.site, self.standing(), &spot))
    }

    // Writes the nodes of a path of the rule at a position that touches the port, and tells how many they are.
    pub fn route(&self, position: usize, port: Port, out: &mut [u8]) -> Result<usize, Refusal>
        ensures takes { Takes K.Kind.sense self.now self.now (route position port out.old result out.new) }
        ensures law { (h : List (Step K.Point)) → Led K.Kind.sense h self.now → Routed (map_of self.now) K.Kind.sense h position port out.old result out.new }
    {
        if out.len() < 48 {
            return Err(Cause::NoRoom.at(0));
        }
        if !port.is_in(self.site) {
            return Err(Cause::NoPortOrClass.at(0));
        }
        let drawn = routing::draw(self.site, self.standing(), position, port, out);
        drawn.ok_or(Cause::NotTouched.at(0))
    }
}
