// Seconds of the day, read from values and written as text.
ghost use Rattle.std.specs.Prelude.{◌≡◌, ◌+◌, ◌<◌};
ghost use Rattle.kind.specs.Digits.{number};
ghost use Rattle.clock.specs.Times.{minute_from, sixtieth, second_of, two_digits, clock_text};

use kind::number_of;

// The seconds of a day.
pub(crate) const DAY: u32 = 86400;

// The minute of the day that one to four digits write.
fn minute_of(digits: &[u8]) -> Option<u32>
    ensures { result ≡ minute_from (number digits.now) }
{
    let n = u32::from(number_of(digits)?);
    let (hour, minute) = (n / 100, n % 100);
    (hour < 24 && minute < 60).then_some(60 * hour + minute)
}

// A number of seconds below sixty.
fn sixtieth_of(digits: &[u8]) -> Option<u32>
    ensures { result ≡ sixtieth (number digits.now) }
{
    number_of(digits).map(u32::from).filter(|n| *n < 60)
}

// The second of the day that a value writes, as `930`, `0930` or `0930:15`.
pub fn second_of(value: &[u8]) -> Option<u32>
    ensures { result ≡ second_of value.now }
{
    match value {
        [minute @ .., b':', tens, ones] => {
            Some(60 * minute_of(minute)? + sixtieth_of(&[*tens, *ones])?)
        }
        _ => Some(60 * minute_of(value)?),
    }
}

// A number below a hundred in two digits. By hand: seven bytes of fixed places, and what `write!` promises leaves open that it fails.
fn two_digits(n: u32) -> [u8; 2]
    requires { n < 100 }
    ensures { result ≡ two_digits n }
{
    [b'0' + (n / 10) as u8, b'0' + (n % 10) as u8]
}

// A second of the day as text: hour, minute, colon and second.
pub(crate) fn text_of(p: u32) -> [u8; 7]
    requires { p < 86400 }
    ensures { result ≡ clock_text p }
{
    let [ten_hours, hours] = two_digits(p / 3600);
    let [ten_minutes, minutes] = two_digits(p / 60 % 60);
    let [ten_seconds, seconds] = two_digits(p % 60);
    [
        ten_hours,
        hours,
        ten_minutes,
        minutes,
        b':',
        ten_seconds,
        seconds,
    ]
}
