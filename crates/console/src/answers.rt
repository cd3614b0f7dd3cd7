// Why there is no answer, and how an answer is written.
ghost use Rattle.std.specs.Prelude.{◌≡◌, Err, OnOk, IfErr, IfSome, IsNone, IsSome};
ghost use Rattle.std.specs.Fmt.{with_newline};
ghost use Rattle.std.specs.Io.KnownBytes.{Appends};
ghost use Rattle.console.specs.declared.answers.NoAnswer.TheVariants.{Refused, Failed};
ghost use Rattle.console.specs.Answers.{failure, reason, told};

use crate::line::Line;
use site::Refusal;
use std::alloc::AllocError;
use std::fmt::Write as _;
use std::io::Write;
use std::{fmt, io};

#[derive(Debug, Drop)]
pub enum NoAnswer {
    TooLong,
    Refused(Refusal),
    Failed(io::Error),
}

impl From<Refusal> for NoAnswer {
    ghost from_gives = { λ e r. r ≡ Refused e };

    fn from(refusal: Refusal) -> NoAnswer {
        NoAnswer::Refused(refusal)
    }
}

impl From<io::Error> for NoAnswer {
    ghost from_gives = { λ e r. r ≡ Failed e };

    fn from(cause: io::Error) -> NoAnswer {
        NoAnswer::Failed(cause)
    }
}

impl From<AllocError> for NoAnswer {
    ghost from_gives = { λ _ r. IsSome (failure r) };

    fn from(error: AllocError) -> NoAnswer {
        NoAnswer::Failed(io::Error::from(error))
    }
}

// By hand: a derived Display states no text.
impl fmt::Display for NoAnswer {
    ghost output = { reason };

    fn fmt<W: fmt::Write>(&self, f: &mut fmt::Formatter<W>) -> fmt::Result {
        match self {
            NoAnswer::TooLong => write!(f, "too long"),
            NoAnswer::Refused(why) => write!(f, "{why}"),
            NoAnswer::Failed(error) => write!(f, "{error}"),
        }
    }
}

// Writes the line that says why there is no answer, whole and at once.
fn write_line<W: Write>(out: &mut W, why: NoAnswer) -> io::Result<()>
    requires { IsNone (failure why) }
    ensures { OnOk result (IfSome (with_newline (reason why)) (Appends (W.contents out.old) (W.contents out.new))) }
{
    // The longest is `refused 24 at 18446744073709551615` and a newline, 35 bytes.
    let mut line = Line::<35>::new();
    match writeln!(line, "{why}") {
        Ok(()) => out.write_all(line.as_slice()),
        // `Line` takes any text: what comes here fails of itself, and does so at `out` too.
        Err(_) => writeln!(out, "{why}"),
    }
}

// Writes an answer, or a line that says why there is none; a failure of the system is the caller's.
pub fn write_answer<W: Write>(out: &mut W, answer: Result<Vec<u8>, NoAnswer>) -> io::Result<()>
    ensures written { OnOk result (IfSome (told answer) (Appends (W.contents out.old) (W.contents out.new))) }
    ensures failed { IfErr answer (λ why. IfSome (failure why) (λ error. result ≡ Err error)) }
{
    match answer {
        Ok(text) => out.write_all(text.as_slice()),
        Err(NoAnswer::Failed(error)) => Err(error),
        Err(other) => write_line(out, other),
    }
}
