// Reads the map site.map of the current folder and rules on standard input, and names every pair that contradicts.
#![tactic(auto)]

mod listing;

use book::Book;
use console::{NoAnswer, read_whole, write_answer};
use listing::list;
use pile::Pile;
use rules::{Rule, more};
use site::{Refusal, Site};
use std::fs::File;
use std::process::ExitCode;

// The most rules that a book holds.
pub(crate) const RULES: usize = 64;

// Admits rule after rule. By count: no clause says that a rule takes up text, but one more than the most is refused.
fn admit_all(book: &mut Book<'_, '_, Pile>, text: &[u8]) -> Result<(), Refusal> {
    let mut at = 0;
    for _ in 0..=RULES {
        if !more(text, at) {
            break;
        }
        at = book.admit(text, at)?;
    }
    Ok(())
}

fn answer(rt: &HostRuntime) -> Result<Vec<u8>, NoAnswer> {
    let map = read_whole(rt.alloc(), File::open(rt, "site.map")?)?;
    let text = read_whole(rt.alloc(), rt.stdin())?;
    let (Some(map), Some(text)) = (map, text) else {
        return Err(NoAnswer::TooLong);
    };
    let site = Site::read(map.as_slice())?;
    let mut slots = [Rule::<Pile>::blank(); RULES];
    let mut book = Book::new(&site, &mut slots);
    admit_all(&mut book, text.as_slice())?;
    list(rt.alloc(), &book)
}

fn main(rt: HostRuntime) -> ExitCode {
    if let Err(error) = write_answer(&mut rt.stdout(), answer(&rt)) {
        let _ = eprintln!(rt; "rulecheck: {error}");
        return ExitCode::FAILURE;
    }
    ExitCode::SUCCESS
}
