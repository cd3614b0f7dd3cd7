// Patterns over small sites with the ports that their paths touch; prints how many are answered so.
#![tactic(auto)]

mod answer;
mod brute;
mod cliques;
mod draft;
mod draw;
mod worked;

use std::io;

// Prints each case that is answered otherwise, and how many are not.
fn worked_cases(rt: &HostRuntime) -> io::Result<()> {
    for case in worked::CASES.iter().filter(|case| !case.agrees()) {
        println!(rt; "answered otherwise: {}", case.shows)?;
    }
    let good = worked::CASES.iter().filter(|case| case.agrees()).count();
    println!(rt; "worked site: {good} of {}", worked::CASES.len())
}

fn main(rt: HostRuntime) -> io::Result<()> {
    worked_cases(&rt)?;
    println!(rt; "paths drawn on the worked site: {} of 5", draw::agreeing())?;
    println!(rt; "budget: {} of 4", cliques::agreeing())?;
    println!(rt;
        "random sites against all orders of their nodes: {} of {}",
        brute::agreeing(),
        brute::ALL
    )
}
