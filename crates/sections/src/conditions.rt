// The third section of a rule: its condition, taken on comparison by comparison.
ghost use Rattle.std.specs.Prelude.{◌≡◌, ◌≤◌, length, IfOk, Ok, Err, MatchResult};
ghost use Rattle.sections.specs.Conditions.{Conditions, begun, cause_of, offered, conditions_of, no_conditions, condition_section, condition_read, state};
ghost use Rattle.sections.specs.Meeting.{read_section};

use crate::section::{Section, read};
use fixed::is_name;
use kind::{Claim, Declined, Kind, Sign as Relation};
use site::{Cause, Refusal};
use words::{Due, Sign, Word};

// A comparison that is being read: its word, the word's place, and its sign.
#[derive(Clone, Copy)]
pub struct Comparison<'t> {
    word: &'t [u8],
    place: usize,
    sign: Relation,
}

impl<'t> Comparison<'t> {
    // Offers it to the kind with its value. A word of no kind is refused at the word, the rest at the value.
    fn offer<K: Kind>(&self, condition: &mut K, value: &[u8], place: usize) -> Result<(), Refusal>
        ensures { MatchResult result
            (λ _. offered K.Kind.sense.taken condition.old self.now.word.now self.now.sign value.now self.now.place place ≡ Ok condition.new)
            (λ e. offered K.Kind.sense.taken condition.old self.now.word.now self.now.sign value.now self.now.place place ≡ Err e) }
    {
        if value.len() > 16 {
            return Err(Cause::OverLimit.at(place));
        }
        let claim = condition
            .take(self.word, self.sign, value)
            .map_err(|declined| cause_of(declined).at(place))?;
        match claim {
            Claim::Taken => Ok(()),
            Claim::NotMine => Err(Cause::NoKind.at(self.place)),
        }
    }
}

// A kind's fault as a cause; both are of other crates, so that no `From` can stand here.
fn cause_of(declined: Declined) -> Cause
    ensures { result ≡ cause_of declined }
{
    match declined {
        Declined::BadValue => Cause::BadValue,
        Declined::Doubled => Cause::DoubledBound,
    }
}

// What the section expects next.
#[derive(Clone, Copy, Debug, PartialEq)]
pub enum Stage {
    Open,
    First,
    Sign,
    Value,
    After,
    Next,
    Close,
    Done,
}

// The condition so far, how many comparisons were begun, and the one that is being read.
// That one stands beside the stage, since what the section means keeps the last one to the end.
#[derive(Drop)]
pub struct Conditioning<'t, K> {
    stage: Stage,
    count: usize,
    reading: Comparison<'t>,
    condition: K,
}

// The count after one comparison more, if it may be begun with this word.
fn begin(count: usize, word: &[u8], place: usize) -> Result<usize, Refusal>
    ensures { result ≡ begun count word.now place }
{
    if !is_name(word) || count >= 8 {
        return Err(Cause::OverLimit.at(place));
    }
    Ok(count + 1)
}

impl<'t, K: Kind> Conditioning<'t, K> {
    // The sign of the comparison was read, and its value is due.
    fn relate(&mut self, sign: Relation)
        ensures { Ok (conditions_of self.new) ≡ state Stage.Value self.old.count self.old.reading.word.now self.old.reading.place sign self.old.condition }
    {
        self.reading.sign = sign;
        self.stage = Stage::Value;
    }
}

impl<'t, K: Kind> Section<'t> for Conditioning<'t, K> {
    ghost State = { Conditions K };

    ghost view = { conditions_of };

    ghost course = { λ _. condition_section K.Kind.sense.taken };

    fn due(&self) -> Option<Due> {
        match self.stage {
            Stage::Done => None,
            Stage::Value => Some(Due::Value),
            _ => Some(Due::Word),
        }
    }

    fn meet(&mut self, word: Word, bytes: &'t [u8], place: usize) -> Result<(), Refusal> {
        match (self.stage, word) {
            (Stage::Open, Word::Sign(Sign::Open)) => self.stage = Stage::First,
            (Stage::First, Word::Sign(Sign::Star)) => self.stage = Stage::Close,
            (Stage::First | Stage::Next, Word::Name) => {
                self.count = begin(self.count, bytes, place)?;
                self.reading.word = bytes;
                self.reading.place = place;
                self.stage = Stage::Sign;
            }
            (Stage::Sign, Word::Sign(Sign::Same)) => self.relate(Relation::Equal),
            (Stage::Sign, Word::Sign(Sign::Differs)) => self.relate(Relation::NotEqual),
            (Stage::Sign, Word::Sign(Sign::AtLeast)) => self.relate(Relation::AtLeast),
            (Stage::Sign, Word::Sign(Sign::AtMost)) => self.relate(Relation::AtMost),
            (Stage::Value, Word::Value) => {
                self.reading.offer(&mut self.condition, bytes, place)?;
                self.stage = Stage::After;
            }
            (Stage::After, Word::Sign(Sign::Comma)) => self.stage = Stage::Next,
            (Stage::After | Stage::Close, Word::Sign(Sign::Close)) => self.stage = Stage::Done,
            _ => return Err(Cause::Unexpected.at(place)),
        }
        Ok(())
    }
}

// The section of conditions from a place on, and the place after it.
pub fn read_conditions<K: Kind + Drop>(text: &[u8], at: usize) -> Result<(K, usize), Refusal>
    ensures is { result ≡ condition_read (read_section (condition_section K.Kind.sense.taken) text.now (no_conditions K.Kind.sense.everywhere) at) }
    ensures within { at ≤ length text.now → IfOk result (λ p. p.1 ≤ length text.now) }
{
    let reading = Comparison {
        word: &text[0..0],
        place: 0,
        sign: Relation::Equal,
    };
    let conditioning = Conditioning {
        stage: Stage::Open,
        count: 0,
        reading,
        condition: K::open(),
    };
    let (conditioning, end) = read(conditioning, text, at)?;
    Ok((conditioning.condition, end))
}
