// What a search answers, in a form to compare.
use paths::{Fault, Item, Pattern, Port, search};
use site::{Link, Site};

pub fn pattern(items: &[Item]) -> Pattern {
    let mut made = Pattern::new();
    for item in items {
        let _ = made.push(*item);
    }
    made
}

// Two bits for each link, from the lowest on: what `test` says of its first port and of its second.
pub fn mask<F: Fn(u8, Link) -> [bool; 2]>(links: &[Link], test: F) -> u64
    requires { F.IsAlwaysCallable test }
{
    let mut bits = 0;
    for (i, link) in links.iter().enumerate().rev() {
        let [first, second] = test((i % 64) as u8, *link);
        bits = bits << 2 | u64::from(second) << 1 | u64::from(first);
    }
    bits
}

// The ports that are touched.
pub fn told(site: &Site, pattern: &Pattern) -> Result<u64, Fault> {
    let ports = search(site, pattern)?;
    Ok(mask(site.links(), |link, ends| {
        [ends.a, ends.b].map(|node| ports.contains(site, Port { link, node }))
    }))
}

// The answer to a pattern over a map; none where the map is refused.
pub fn answer(map: &[u8], items: &[Item]) -> Option<Result<u64, Fault>> {
    let site = Site::read(map).ok()?;
    Some(told(&site, &pattern(items)))
}
