// The head of a rule: its id, and the user whose rule it is.
ghost use Rattle.std.specs.Prelude.{◌≡◌, ◌≤◌, length, IfOk, Ok, Err, MatchResult};
ghost use Rattle.site.specs.Sites.{plan};
ghost use Rattle.sections.specs.Heads.{name_of, name_from, head_of, head_from};

use fixed::Name;
use site::{Cause, Refusal, Site};
use words::{Due, Word, word_from};

// A name and where it stands.
#[derive(Clone, Copy)]
struct Placed {
    name: Name,
    from: usize,
    to: usize,
}

#[derive(Clone, Copy)]
pub struct Head {
    pub id: Name,
    pub place: usize,
    pub user: u8,
    pub rank: u8,
    pub end: usize,
}

// The name at a place or after it.
fn read_name(text: &[u8], at: usize) -> Result<Placed, Refusal>
    ensures is { MatchResult result (λ n. name_from text.now at ≡ Ok (name_of n)) (λ e. name_from text.now at ≡ Err e) }
    ensures within { IfOk result (λ n. n.to ≤ length text.now) }
{
    let found = word_from(text, at, Due::Word)?;
    let Word::Name = found.word else {
        return Err(Cause::Unexpected.at(found.from));
    };
    let name = Name::from_bytes(found.bytes(text)).ok_or(Cause::OverLimit.at(found.from))?;
    Ok(Placed {
        name,
        from: found.from,
        to: found.to,
    })
}

// The id and the user from a place on.
pub fn read_head(site: &Site, text: &[u8], at: usize) -> Result<Head, Refusal>
    ensures is { MatchResult result (λ h. head_from (plan site.now) text.now at ≡ Ok (head_of h)) (λ e. head_from (plan site.now) text.now at ≡ Err e) }
    ensures within { IfOk result (λ h. h.end ≤ length text.now) }
{
    let id = read_name(text, at)?;
    let by = read_name(text, id.to)?;
    let user = site
        .user(by.name.as_bytes())
        .ok_or(Cause::Undeclared.at(by.from))?;
    Ok(Head {
        id: id.name,
        place: id.from,
        user,
        rank: site.rank(user).unwrap_or(0),
        end: by.to,
    })
}
