// Paths drawn into a buffer, on the worked site.
use crate::answer::pattern;
use crate::worked;
use paths::{Item, Port, own_path};
use site::Site;

// The path of one pattern that touches a port: its length, then the front of the buffer.
fn drawn(items: &[Item], link: u8, node: u8) -> Option<(usize, [u8; 4])> {
    let site = Site::read(&worked::MAP).ok()?;
    let mut out = [7; 48];
    let len = own_path(&site, &[pattern(items)], Port { link, node }, &mut out)?;
    Some((len, [out[0], out[1], out[2], out[3]]))
}

pub fn agreeing() -> usize {
    let ends = [worked::GATE, worked::STAR, worked::HILL];
    let good = [
        drawn(&ends, 3, 1) == Some((3, [0, 1, 3, 7])),
        drawn(&ends, 2, 2) == Some((4, [0, 1, 2, 3])),
        drawn(&[worked::MILL], 1, 2) == Some((1, [2, 7, 7, 7])),
        drawn(&[worked::MILL], 0, 1).is_none(),
        drawn(&[worked::STAR], 0, 3).is_none(),
    ];
    good.iter().filter(|good| **good).count()
}
