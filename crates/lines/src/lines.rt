// The lines of a report, written into a buffer.
ghost use Rattle.std.specs.Prelude.{◌≡◌, true, ◌++◌, map, Some, MatchOption};
ghost use Rattle.std.specs.List.{slice_get};
ghost use Rattle.kind.specs.Texts.{shown};
ghost use Rattle.site.specs.Sites.{plan};
ghost use Rattle.rules.specs.Rules.{Ruling, rule_of};
ghost use Rattle.pairs.specs.Disagreement.{touches};
ghost use Rattle.lines.specs.Lines.{written, mark_word, totals_line, entry_front, Put, Stand, Lined};

use crate::line::Line;
use kind::{Kind, Printable, put};
use pairs::{Entry, Mark, Spot, Totals, check_place};
use paths::Port;
use rules::Rule;
use site::{Cause, Refusal, Site};

// The line of the totals.
pub fn write_totals(totals: Totals, out: &mut [u8]) -> Result<usize, Refusal>
    ensures { Put (totals_line totals) out.old result out.new }
{
    let mut line = Line::new();
    line.put_number(totals.pairs);
    line.put(b" pairs, ");
    line.put_number(totals.unsettled);
    line.put(b" open");
    put(line.as_slice(), out).ok_or(Cause::NoRoom.at(0))
}

// Writes the line of an entry about these rules to the front of a buffer, and tells how long it is.
pub fn write_line<K: Printable>(
    site: &Site,
    rules: &[Rule<K>],
    entry: &Entry<K::Point>,
    out: &mut [u8],
) -> Result<usize, Refusal>
    ensures { Lined (plan site.now) K.Kind.sense K.Printable.text (map rule_of rules.now) entry.now out.old result out.new }
{
    let spot = Spot {
        port: entry.port,
        class: entry.class,
        point: &entry.point,
    };
    check_place::<K>(site, &spot)?;
    let line = heading(site, rules, entry).ok_or(Cause::NotTouched.at(0))?;
    put_with_point::<K>(line.as_slice(), &entry.point, out)
}

// Puts a text and behind it the text of a point to the front of a buffer, if they are not over it.
fn put_with_point<K: Printable>(
    text: &[u8],
    point: &K::Point,
    out: &mut [u8],
) -> Result<usize, Refusal>
    ensures { Put (text.now ++ shown K.Kind.sense K.Printable.text point.now) out.old result out.new }
{
    if text.len() > out.len() {
        return Err(Cause::NoRoom.at(0));
    }
    let len = K::write_text(point, &mut out[text.len()..]).ok_or(Cause::NoRoom.at(0))?;
    out[..text.len()].copy_from_slice(text);
    Ok(text.len() + len)
}

// The line of an entry up to its point, where both rules stand and touch the port.
fn heading<K: Kind>(site: &Site, rules: &[Rule<K>], entry: &Entry<K::Point>) -> Option<Line>
    ensures { MatchOption result ((q t : Ruling K) → Stand (plan site.now) (map rule_of rules.now) entry.now.first entry.now.second entry.now.port q t → ⊥) (λ line. (q : Ruling K) × (t : Ruling K) × Stand (plan site.now) (map rule_of rules.now) entry.now.first entry.now.second entry.now.port q t × (written line ≡ entry_front (plan site.now) q t entry.now.mark entry.now.port entry.now.class)) }
{
    let first = touching(site, rules, entry.first, entry.port)?;
    let second = touching(site, rules, entry.second, entry.port)?;
    Some(front(site, first, second, entry))
}

// The rule at a position, if it touches the port.
fn touching<'r, K>(
    site: &Site,
    rules: &'r [Rule<K>],
    position: usize,
    port: Port,
) -> Option<&'r Rule<K>>
    ensures { MatchOption result ((q : Ruling K) → slice_get (map rule_of rules.now) position ≡ Some q → touches (plan site.now) q port ≡ true → ⊥) (λ r. (slice_get (map rule_of rules.now) position ≡ Some (rule_of r.now)) × (touches (plan site.now) (rule_of r.now) port ≡ true)) }
{
    let rule = rules.get(position)?;
    rule.ports.contains(site, port).then_some(rule)
}

// The line of an entry of two rules up to its point.
fn front<K: Kind>(site: &Site, first: &Rule<K>, second: &Rule<K>, entry: &Entry<K::Point>) -> Line
    ensures { written result ≡ entry_front (plan site.now) (rule_of first.now) (rule_of second.now) entry.now.mark entry.now.port entry.now.class }
{
    let mut line = Line::new();
    line.put(first.id.as_bytes());
    line.put(b" ");
    line.put(second.id.as_bytes());
    line.put(mark_word(entry.mark));
    line.put_number(usize::from(entry.port.link));
    line.put(b" end ");
    line.put_name(site.node_name(entry.port.node));
    line.put(b" class ");
    line.put_name(site.class_name(entry.class));
    line.put(b" at ");
    line
}

// By hand: a line takes bytes that are put, and no Display.
fn mark_word(mark: Mark) -> &'static [u8]
    ensures { result.now ≡ mark_word mark }
{
    match mark {
        Mark::Open => b" open link ",
        Mark::First => b" first link ",
        Mark::Second => b" second link ",
    }
}
