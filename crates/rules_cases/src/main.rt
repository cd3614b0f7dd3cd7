// Reads cases from standard input and tells which of them are not read as expected.
// A case is a line with a number, a place and a word on the case, then a text, then a line with a dot:
// the text's refusal and its place, or 0 and the place after the rule.
#![tactic(auto)]

use kind::Kind;
use paths::Item;
use pile::Pile;
use rules::{Rule, read_rule};
use site::{Refusal, Site};
use std::io::Read;
use std::mem::size_of;

// Nodes gate, barn, mill, hill, linked gate-barn, barn-mill, mill-hill, barn-hill; classes data, voice, video;
// users boss of rank 1 and ward of rank 3.
const MAP: &[u8] =
    b"\x01\x00\x04gate\x01\x00\x04barn\x01\x00\x04mill\x01\x00\x04hill\x02\x00\x02\x00\x01\x02\x00\x02\x01\x02\x02\x00\x02\x02\x03\x02\x00\x02\x01\x03\x03\x00\x04data\x03\x00\x05voice\x03\x00\x05video\x04\x00\x05\x01boss\x04\x00\x05\x03ward";

const TOLD: &[u8] =
    b"late boss {<gate,*,hill>} {traffic_class == {voice}} {time >= 2200, time <= 0600} {permit}; sound ward {<barn,mill>, <mill>} {traffic_class != {voice}} {time <= 0800} {deny}; field boss {*} {*} {*} {priority := 4};";

// A text, and what is expected of it: the number and the place of its refusal, or 0 and the place after the rule.
#[derive(Clone, Copy)]
struct Case<'t> {
    number: &'t str,
    place: &'t str,
    about: &'t str,
    text: &'t str,
}

impl<'t> Case<'t> {
    fn parse(case: &'t str) -> Option<Case<'t>> {
        let (line, text) = case.split_once('\n')?;
        let (number, rest) = line.split_once(' ')?;
        let (place, about) = rest.split_once(' ')?;
        Some(Case {
            number,
            place,
            about,
            text,
        })
    }
}

// The place after the rule that a text writes.
fn outcome(site: &Site, text: &[u8]) -> Result<usize, Refusal> {
    let (_, end) = read_rule::<Pile>(site, text, 0)?;
    Ok(end)
}

// What was read of a rule, part by part: nodes, classes and users by number.
fn tell(rt: &HostRuntime, rule: &Rule<Pile>) -> anyhow::Result<()> {
    println!(rt;
        "{} at {}, user {} of rank {}",
        rule.id, rule.place, rule.user, rule.rank
    )?;
    for route in rule.routes.as_slice() {
        print!(rt; "  pattern")?;
        for item in route.pattern.items() {
            match item {
                Item::Node(n) => print!(rt; " {n}")?,
                Item::Star => print!(rt; " *")?,
            }
        }
        println!(rt; "")?;
    }
    for route in rule.routes.as_slice() {
        println!(rt; "  first sign at {}", route.place)?;
    }
    for class in (0..3).filter(|class| rule.target.contains(*class)) {
        println!(rt; "  class {class}")?;
    }
    println!(rt; "  {:?}, semicolon at {}", rule.action, rule.semicolon)?;
    Ok(())
}

// Three rules, one after another.
fn tell_all(rt: &HostRuntime, site: &Site) -> anyhow::Result<()> {
    let mut at = 0;
    for _ in 0..3 {
        if let Ok((rule, end)) = read_rule::<Pile>(site, TOLD, at) {
            tell(rt, &rule)?;
            at = end;
        }
    }
    println!(rt; "a rule takes {} bytes", size_of::<Rule<Pile>>())?;
    Ok(())
}

fn run(rt: &HostRuntime) -> anyhow::Result<()> {
    let Ok(site) = Site::read(MAP) else {
        return Ok(println!(rt; "the map is refused")?);
    };
    let mut input = String::new(rt.alloc());
    rt.stdin().read_to_string(&mut input)?;
    let mut count: u64 = 0;
    let mut other: u64 = 0;
    for case in input.split("\n.\n").filter_map(Case::parse) {
        let (number, place) = match outcome(&site, case.text.as_bytes()) {
            Ok(end) => (0, end),
            Err(refusal) => (refusal.number(), refusal.place),
        };
        count = count.wrapping_add(1);
        if case.number.parse::<u8>()? != number || case.place.parse::<usize>()? != place {
            other = other.wrapping_add(1);
            println!(rt;
                "{number} at {place}, not {} at {}: {}",
                case.number, case.place, case.about
            )?;
        }
    }
    println!(rt; "{count} cases, {other} otherwise than expected")?;
    tell_all(rt, &site)
}

fn main(rt: HostRuntime) -> anyhow::Result<()> {
    run(&rt)
}
