// Compares the kinds with searches written on their own and with tables made by hand, and prints how many agree.
#![tactic(auto)]

mod addresses;
mod times;
mod weeks;
mod windows;

use std::io;

// How many pairs of cases pass a test.
fn pairs<T, F: Fn(&T, &T) -> bool>(cases: &[T], passes: F) -> usize
    requires { F.IsAlwaysCallable passes }
{
    cases
        .iter()
        .map(|a| cases.iter().filter(|b| passes(a, b)).count())
        .fold(0, usize::saturating_add)
}

fn main(rt: HostRuntime) -> io::Result<()> {
    println!(rt; "windows: {} of 100 agree", windows::agreeing())?;
    println!(rt; "days: {} of 784 agree", weeks::agreeing())?;
    println!(rt; "times: {} of 20 agree", times::agreeing())?;
    println!(rt; "addresses: {} of 12 agree", addresses::agreeing())
}
