// The last section of a rule, its action, and the semicolon after it.
ghost use Rattle.std.specs.Prelude.{◌≡◌, ◌≤◌, length, IfOk, Ok, Err};
ghost use Rattle.std.specs.List.{list_all};
ghost use Rattle.kind.specs.Digits.{digit};
ghost use Rattle.sections.specs.Actions.{Actions, priority_of, acting, closed, no_action, action_section};
ghost use Rattle.sections.specs.Meeting.{viewed, read_section};

use crate::section::{Section, read};
use kind::number_of;
use site::{Cause, Refusal};
use words::{Due, Sign, Word};

// What a rule does with the traffic that it speaks of. A priority permits.
#[derive(Clone, Copy, Debug, PartialEq)]
pub enum Action {
    Permit,
    Deny,
    Priority(u8),
}

// The action that was read, and the place of the semicolon.
#[derive(Clone, Copy, Debug, PartialEq)]
pub struct Closing {
    pub action: Action,
    pub semicolon: usize,
}

// What the section expects next, with what it has read.
#[derive(Clone, Copy, Debug, PartialEq)]
pub enum Acting {
    Open,
    Action,
    Becomes,
    Number,
    Close(Action),
    Semicolon(Action),
    Done(Closing),
}

fn are_digits(bytes: &[u8]) -> bool
    ensures { result ≡ list_all digit bytes.now }
{
    bytes.iter().all(|b| b.is_ascii_digit())
}

// A priority: one to three digits, up to 255.
fn priority_of(bytes: &[u8], place: usize) -> Result<u8, Refusal>
    ensures { result ≡ priority_of bytes.now place }
{
    if !are_digits(bytes) {
        return Err(Cause::Unexpected.at(place));
    }
    if bytes.len() > 3 {
        return Err(Cause::OverLimit.at(place));
    }
    // One to three digits always write a number: only an empty word has none, and no word that is read is empty.
    let number = number_of(bytes).unwrap_or(0);
    u8::try_from(number).map_err(|_| Cause::OverLimit.at(place))
}

impl<'t> Section<'t> for Acting {
    ghost State = { Actions };

    ghost view = { acting };

    ghost course = { λ _. action_section };

    fn due(&self) -> Option<Due> {
        match self {
            Acting::Done(_) => None,
            _ => Some(Due::Word),
        }
    }

    fn meet(&mut self, word: Word, bytes: &'t [u8], place: usize) -> Result<(), Refusal> {
        *self = match (*self, word) {
            (Acting::Open, Word::Sign(Sign::Open)) => Acting::Action,
            (Acting::Action, Word::Name) if bytes == b"permit".as_slice() => Acting::Close(
                Action::Permit,
            ),
            (Acting::Action, Word::Name) if bytes == b"deny".as_slice() => Acting::Close(
                Action::Deny,
            ),
            (Acting::Action, Word::Name) if bytes == b"priority".as_slice() => Acting::Becomes,
            (Acting::Becomes, Word::Sign(Sign::Becomes)) => Acting::Number,
            (Acting::Number, Word::Name) => Acting::Close(Action::Priority(priority_of(
                bytes, place,
            )?)),
            (Acting::Close(action), Word::Sign(Sign::Close)) => Acting::Semicolon(action),
            (Acting::Semicolon(action), Word::Sign(Sign::Semicolon)) => Acting::Done(Closing {
                action,
                semicolon: place,
            }),
            _ => return Err(Cause::Unexpected.at(place)),
        };
        Ok(())
    }
}

// The action and the semicolon from a place on, and the place after them.
pub fn read_action(text: &[u8], at: usize) -> Result<(Closing, usize), Refusal>
    ensures is { viewed closed result ≡ read_section action_section text.now no_action at }
    ensures within { at ≤ length text.now → IfOk result (λ p. p.1 ≤ length text.now) }
{
    match read(Acting::Open, text, at)? {
        (Acting::Done(closing), end) => Ok((closing, end)),
        _ => unreachable!(),
    }
}
