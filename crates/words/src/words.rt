// The words of a rule's text: names, values and signs, with blanks free between them.
ghost use Rattle.std.specs.Prelude.{◌≡◌, ◌<◌, ◌≤◌, length, drop, IfOk, IfSome, MatchResult};
ghost use Rattle.std.specs.List.{prefix_len};
ghost use Rattle.words.specs.Words.{value_byte, bytes_of, wants_value, leading, due_at, due_from, moved, Inside};
ghost use Rattle.words.specs.Writing.{ReadAsItStands};

use crate::blanks::blank_run;
use crate::signs::{Sign, read_sign};
use fixed::{is_name_byte, name_run};
use site::{Cause, Refusal};

#[derive(Clone, Copy, Debug, PartialEq)]
pub enum Word {
    Name,
    Value,
    Sign(Sign),
}

// A word and where it stands: from its first byte to the place after it.
#[derive(Clone, Copy, Debug, PartialEq)]
pub struct Found {
    pub word: Word,
    pub from: usize,
    pub to: usize,
}

impl Found {
    // The bytes of the word, in its text; a place past the text counts as its end.
    pub fn bytes<'t>(&self, text: &'t [u8]) -> &'t [u8]
        ensures { result.now ≡ bytes_of text.now self.now }
    {
        let to = self.to.min(text.len());
        let from = self.from.min(to);
        &text[from..to]
    }
}

// Which words may come next: values stand only where one is due, names and signs elsewhere.
#[derive(Clone, Copy, Debug, PartialEq)]
pub enum Due {
    Word,
    Value,
}

impl Due {
    // The word at the front, where no blank stands, and its length.
    fn lead(self, bytes: &[u8]) -> Option<(Word, usize)>
        ensures is { result ≡ leading (wants_value self) bytes.now }
        ensures within { IfSome result (λ p. (0 < p.1) × (p.1 ≤ length bytes.now)) }
    {
        match self {
            Due::Word => match name_run(bytes) {
                0 => read_sign(bytes).map(|(sign, length)| (Word::Sign(sign), length)),
                length => Some((Word::Name, length)),
            },
            Due::Value => match value_run(bytes) {
                0 => None,
                length => Some((Word::Value, length)),
            },
        }
    }
}

fn is_value_byte(b: u8) -> bool
    ensures { result ≡ value_byte b }
{
    is_name_byte(b) || matches!(b, b'.' | b':' | b'*')
}

// How many bytes of a value stand at the front.
// As with blanks; one function for both would take the test as a parameter, and save no line.
fn value_run(part: &[u8]) -> usize
    ensures is { result ≡ prefix_len value_byte part.now }
    ensures within { result ≤ length part.now }
{
    part.iter().take_while(|b| is_value_byte(**b)).count()
}

// The word that is due at the front of a part of the text, past any blanks; places count from the part's start.
fn read(part: &[u8], due: Due) -> Result<Found, Refusal>
    ensures is { result ≡ due_at (wants_value due) part.now }
    ensures within { MatchResult result (Inside (length part.now)) (λ e. e.place ≤ length part.now) }
{
    let from = blank_run(part);
    let rest = &part[from..];
    if rest.is_empty() {
        return Err(Cause::TextEnds.at(from));
    }
    due.lead(rest)
        .map(|(word, length)| Found {
            word,
            from,
            to: from + length,
        })
        .ok_or(Cause::Unexpected.at(from))
}

// The word that is due at a place or after it; a place past the text counts as its end.
// The text from its middle is handed on as a part, and places count from the text's start.
pub fn word_from(text: &[u8], at: usize, due: Due) -> Result<Found, Refusal>
    ensures is { result ≡ due_from (wants_value due) text.now at }
    ensures in_text { at ≤ length text.now → result ≡ moved at (due_at (wants_value due) (drop at text.now)) }
    ensures law { ReadAsItStands (wants_value due) text.now at result }
    ensures within { IfOk result (λ f. Inside (length text.now) f × (at ≤ f.from)) }
{
    let start = at.min(text.len());
    read(&text[start..], due)
        .map(|found| Found {
            word: found.word,
            from: start + found.from,
            to: start + found.to,
        })
        .map_err(|refusal| refusal.cause.at(start + refusal.place))
}
