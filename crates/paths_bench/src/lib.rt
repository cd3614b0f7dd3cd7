// The search behind a C interface, for the program in bench/ to time.
#![tactic(auto)]

use paths::{Fault, Item, Pattern, Port, PortSet, search};
use site::Site;

// Searches the map for the pattern so many times; 255 among the items is a star, any other byte a node.
// Answers how many ports are touched, 1000 for too many partial paths, 1001 for no path, 1002 for a bad map.
#[unsafe(no_mangle)]
pub extern "C" fn paths_bench_search(map: &[u8], items: &[u8], times: u32) -> u64 {
    let mut answer = 1002;
    if let Ok(site) = Site::read(map) {
        let pattern = pattern(items);
        for _ in 0..times {
            answer = told(&site, search(&site, &pattern));
        }
    }
    answer
}

fn pattern(items: &[u8]) -> Pattern {
    let mut made = Pattern::new();
    for item in items {
        let _ = made.push(if *item == 255 {
            Item::Star
        } else {
            Item::Node(*item)
        });
    }
    made
}

// Numbers in place of an enum, since that is what C reads.
fn told(site: &Site, answer: Result<PortSet, Fault>) -> u64 {
    match answer {
        Ok(ports) => count(site, &ports),
        Err(Fault::TooMany) => 1000,
        Err(Fault::NoPath) => 1001,
    }
}

// A site has at most 64 links.
fn count(site: &Site, ports: &PortSet) -> u64 {
    (0..64)
        .zip(site.links())
        .flat_map(|(link, ends)| [ends.a, ends.b].map(|node| Port { link, node }))
        .filter(|port| ports.contains(site, *port))
        .count() as u64
}
