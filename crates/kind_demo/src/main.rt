// Prints a condition of the checker's own pile being built up and asked, line by line.
#![tactic(auto)]

use kind::{Claim, Declined, Kind, Printable, Sign};
use pile::{Pile, open_pile};
use std::io;
use std::io::Write;

// A clock second, a day and an address.
type Point = ((u32, u8), [u8; 4]);

// By hand: `Display` cannot be implemented here for a type of another crate.
fn sign_text(sign: Sign) -> &'static str {
    match sign {
        Sign::Equal => "==",
        Sign::NotEqual => "!=",
        Sign::AtLeast => ">=",
        Sign::AtMost => "<=",
    }
}

// By hand, as above.
fn answer_text(answer: Result<Claim, Declined>) -> &'static str {
    match answer {
        Ok(Claim::Taken) => "taken",
        Ok(Claim::NotMine) => "not mine",
        Err(Declined::BadValue) => "bad value",
        Err(Declined::Doubled) => "doubled",
    }
}

// Offers a comparison and prints what becomes of it.
// Five parameters: where it is printed, the condition, and the parts of a comparison, as `take` has them.
fn offer(
    rt: &HostRuntime,
    condition: &mut Pile,
    word: &str,
    sign: Sign,
    value: &str,
) -> io::Result<()> {
    let answer = condition.take(word.as_bytes(), sign, value.as_bytes());
    println!(rt;
        "{word} {} {value}: {}",
        sign_text(sign),
        answer_text(answer)
    )
}

// Prints a point.
fn show(rt: &HostRuntime, p: &Point) -> io::Result<()> {
    let mut text = [0; 33];
    let Some(n) = Pile::write_text(p, &mut text) else {
        return Ok(());
    };
    rt.stdout().write_all(&text[..n])
}

// Prints whether the condition holds at a point.
fn ask(rt: &HostRuntime, condition: &Pile, p: &Point) -> io::Result<()> {
    show(rt, p)?;
    let answer = if condition.contains(p) {
        "holds"
    } else {
        "does not hold"
    };
    println!(rt; ": {answer}")
}

// Prints a point that two conditions have in common.
fn meet(rt: &HostRuntime, a: &Pile, b: &Pile) -> io::Result<()> {
    let Some(p) = a.common(b) else {
        return println!(rt; "nothing in common");
    };
    show(rt, &p)?;
    println!(rt; ": in common")
}

const NIGHT: [(&str, Sign, &str); 8] = [
    ("time", Sign::AtLeast, "1600"),
    ("time", Sign::AtMost, "0800"),
    ("time", Sign::AtLeast, "0900"),
    ("time", Sign::AtMost, "2400"),
    ("day", Sign::NotEqual, "Sunday"),
    ("hostIP", Sign::Equal, "131.1.*.*"),
    ("hostIP", Sign::Equal, "131.*.1.*"),
    ("loss", Sign::Equal, "1"),
];

fn main(rt: HostRuntime) -> io::Result<()> {
    let mut night = open_pile();
    for (word, sign, value) in NIGHT {
        offer(&rt, &mut night, word, sign, value)?;
    }
    ask(&rt, &night, &((82800, 0), [131, 1, 0, 0]))?;
    ask(&rt, &night, &((43200, 0), [131, 1, 0, 0]))?;
    ask(&rt, &night, &((82800, 6), [131, 1, 0, 0]))?;
    let mut other = open_pile();
    offer(&rt, &mut other, "time", Sign::AtMost, "1700:30")?;
    offer(&rt, &mut other, "hostIP", Sign::NotEqual, "131.1.0.*")?;
    meet(&rt, &night, &other)?;
    offer(&rt, &mut other, "hostIP", Sign::NotEqual, "131.*.*.*")?;
    meet(&rt, &night, &other)
}
