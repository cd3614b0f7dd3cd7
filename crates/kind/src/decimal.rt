// Decimal numbers, read from bytes.
ghost use Rattle.std.specs.Prelude.{◌≡◌};
ghost use Rattle.kind.specs.Digits.{number};

// The number that one to four digits write.
pub fn number_of(digits: &[u8]) -> Option<u16>
    ensures { result ≡ number digits.now }
{
    if digits.is_empty() || digits.len() > 4 {
        return None;
    }
    // A loop: tried as a `fold` after a digit test and as a `try_fold` with checked sums, and the proofs stayed open.
    let mut n = 0;
    for b in digits {
        if !b.is_ascii_digit() {
            return None;
        }
        n = 10 * n + u16::from(*b - b'0');
    }
    Some(n)
}
