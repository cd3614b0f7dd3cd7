// The worked site: links gate-barn, barn-mill, mill-hill and barn-hill.
use crate::answer::answer;
use paths::{Fault, Item};

pub static MAP: [u8; 91] =
    *b"\x01\x00\x04gate\x01\x00\x04barn\x01\x00\x04mill\x01\x00\x04hill\x02\x00\x02\x00\x01\x02\x00\x02\x01\x02\x02\x00\x02\x02\x03\x02\x00\x02\x01\x03\x03\x00\x04data\x03\x00\x05voice\x03\x00\x05video\x04\x00\x05\x01boss\x04\x00\x05\x03ward\x05\x00\x01\x01";

pub const GATE: Item = Item::Node(0);

pub const BARN: Item = Item::Node(1);

pub const MILL: Item = Item::Node(2);

pub const HILL: Item = Item::Node(3);

pub const STAR: Item = Item::Star;

// What it shows, the pattern, and the answer: two bits for each link, its first port and its second.
pub struct Case {
    pub shows: &'static str,
    items: &'static [Item],
    told: Result<u64, Fault>,
}

impl Case {
    pub fn agrees(&self) -> bool {
        answer(&MAP, self.items) == Some(self.told)
    }
}

pub static CASES: [Case; 17] = [
    Case {
        shows: "both ways from gate to hill",
        items: &[GATE, STAR, HILL],
        told: Ok(0b11_11_11_11),
    },
    Case {
        shows: "no path comes back",
        items: &[BARN, STAR, BARN],
        told: Err(Fault::NoPath),
    },
    Case {
        shows: "nodes that are not linked",
        items: &[GATE, MILL],
        told: Err(Fault::NoPath),
    },
    Case {
        shows: "one link",
        items: &[GATE, BARN],
        told: Ok(0b00_00_00_11),
    },
    Case {
        shows: "the same link, the other way",
        items: &[BARN, GATE],
        told: Ok(0b00_00_00_11),
    },
    Case {
        shows: "one node touches its own ports alone",
        items: &[MILL],
        told: Ok(0b00_01_10_00),
    },
    Case {
        shows: "a node with three links",
        items: &[BARN],
        told: Ok(0b01_00_01_10),
    },
    Case {
        shows: "a star stands for no single node",
        items: &[STAR, GATE],
        told: Ok(0b11_11_11_11),
    },
    Case {
        shows: "a star before and after one node",
        items: &[STAR, MILL, STAR],
        told: Ok(0b11_11_11_11),
    },
    Case {
        shows: "a star alone",
        items: &[STAR],
        told: Ok(0b11_11_11_11),
    },
    Case {
        shows: "a star between neighbours may stand for none",
        items: &[GATE, STAR, BARN],
        told: Ok(0b00_00_00_11),
    },
    Case {
        shows: "two stars side by side",
        items: &[MILL, STAR, STAR, HILL],
        told: Ok(0b11_11_11_00),
    },
    Case {
        shows: "all twelve items stars",
        items: &[
            STAR, STAR, STAR, STAR, STAR, STAR, STAR, STAR, STAR, STAR, STAR, STAR,
        ],
        told: Ok(0b11_11_11_11),
    },
    Case {
        shows: "an exact path of three",
        items: &[GATE, BARN, HILL],
        told: Ok(0b11_00_00_11),
    },
    Case {
        shows: "more nodes than the site has",
        items: &[GATE, BARN, MILL, HILL, BARN],
        told: Err(Fault::NoPath),
    },
    Case {
        shows: "a node that is not declared",
        items: &[Item::Node(4)],
        told: Err(Fault::NoPath),
    },
    Case {
        shows: "a pattern of no item",
        items: &[],
        told: Err(Fault::NoPath),
    },
];
