// A section of a rule, read word by word until it is done.
ghost use Rattle.std.specs.Prelude.{◌≡◌, ◌≤◌, length, true, false, IfOk, Ok, Err, MatchOption, MatchResult};
ghost use Rattle.words.specs.Words.{wants_value};
ghost use Rattle.sections.specs.Meeting.{Section as Course, viewed, read_section};

use site::Refusal;
use words::{Due, Word, word_from};

pub(crate) trait Section<'t> {
    // What a section is between two words.
    ghost State: { Type 0 };

    ghost view: { Self → State };

    // What each word makes of it.
    ghost course: { Self → Course State };

    // Which word is due, or none once the section is done.
    fn due(&self) -> Option<Due>
        ensures { MatchOption result
            ((course self.now).done (view self.now) ≡ true)
            (λ d. ((course self.now).done (view self.now) ≡ false) × (wants_value d ≡ (course self.now).due (view self.now))) };

    // Moves on by one word, in place.
    fn meet(&mut self, word: Word, bytes: &'t [u8], place: usize) -> Result<(), Refusal>
        ensures met { MatchResult result
            (λ _. (course self.old).meet (view self.old) word bytes.now place ≡ Ok (view self.new))
            (λ e. (course self.old).meet (view self.old) word bytes.now place ≡ Err e) }
        ensures same { course self.new ≡ course self.old };
}

// The section from a place on, and the place after it.
pub(crate) fn read<'t, S: Section<'t> + Drop>(
    mut section: S,
    text: &'t [u8],
    at: usize,
) -> Result<(S, usize), Refusal>
    ensures is { viewed S.view result ≡ read_section (S.course section) text.now (S.view section) at }
    ensures done { IfOk result (λ p. (S.course p.0).done (S.view p.0) ≡ true) }
    ensures within { at ≤ length text.now → IfOk result (λ p. p.1 ≤ length text.now) }
{
    let mut at = at;
    while let Some(due) = section.due() {
        let found = word_from(text, at, due)?;
        section.meet(found.word, found.bytes(text), found.from)?;
        at = found.to;
    }
    Ok((section, at))
}
