// Maps with the answers that the format gives them, worked out by hand; prints how many are so answered.
#![tactic(auto)]

mod limits;
mod table;
mod worked;

use std::io;

// Prints each case that is answered otherwise, and how many are not.
fn refusals(rt: &HostRuntime) -> io::Result<()> {
    for case in table::CASES.iter().filter(|case| !case.agrees()) {
        println!(rt; "answered otherwise: {}", case.shows)?;
    }
    let good = table::CASES.iter().filter(|case| case.agrees()).count();
    println!(rt; "refusals: {good} of {}", table::CASES.len())
}

fn main(rt: HostRuntime) -> io::Result<()> {
    refusals(&rt)?;
    let good = worked::agreeing();
    let all = worked::MAP.len() + 1;
    println!(rt; "beginnings of the worked map: {good} of {all}")?;
    let good = limits::agreeing(rt.alloc())?;
    println!(rt; "limits: {good} of {}", limits::CASES.len())
}
