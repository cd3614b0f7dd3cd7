// The signs of a rule's text.
ghost use Rattle.std.specs.Prelude.{◌≡◌, ◌<◌, ◌≤◌, length, IfSome, slice_index};
ghost use Rattle.words.specs.Words.{sign_of};

#[derive(Clone, Copy, Debug, PartialEq)]
pub enum Sign {
    Open,
    Close,
    Less,
    Greater,
    Comma,
    Semicolon,
    Same,
    Equals,
    Differs,
    AtLeast,
    AtMost,
    Star,
    Becomes,
}

// The sign at the front, and its length: of two that fit, the longer.
pub(crate) fn read_sign(part: &[u8]) -> Option<(Sign, usize)>
    ensures is { result ≡ sign_of (slice_index part.now 0) (slice_index part.now 1) }
    ensures within { IfSome result (λ p. (0 < p.1) × (p.1 ≤ length part.now)) }
{
    match part {
        [b'{', ..] => Some((Sign::Open, 1)),
        [b'}', ..] => Some((Sign::Close, 1)),
        [b'<', b'=', ..] => Some((Sign::AtMost, 2)),
        [b'<', ..] => Some((Sign::Less, 1)),
        [b'>', b'=', ..] => Some((Sign::AtLeast, 2)),
        [b'>', ..] => Some((Sign::Greater, 1)),
        [b',', ..] => Some((Sign::Comma, 1)),
        [b';', ..] => Some((Sign::Semicolon, 1)),
        [b'=', b'=', ..] => Some((Sign::Same, 2)),
        [b'=', ..] => Some((Sign::Equals, 1)),
        [b'!', b'=', ..] => Some((Sign::Differs, 2)),
        [b'*', ..] => Some((Sign::Star, 1)),
        [b':', b'=', ..] => Some((Sign::Becomes, 2)),
        _ => None,
    }
}
