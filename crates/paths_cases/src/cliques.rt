// The budget, on sites where every node is linked to every other.
use crate::answer::answer;
use crate::draft::Map;
use paths::{Fault, Item};

fn clique(nodes: u8) -> Map {
    let mut map = Map::new();
    for n in 0..nodes {
        map.node(n);
    }
    for m in 0..nodes {
        for n in 0..m {
            map.link(m, n);
        }
    }
    map.finish();
    map
}

// A star alone has 13,699 partial paths on seven nodes, and 109,600 on eight; from one node of eight it has 13,700.
pub fn agreeing() -> usize {
    let seven = clique(7);
    let eight = clique(8);
    let good = [
        answer(seven.as_slice(), &[Item::Star]) == Some(Ok((1 << 42) - 1)),
        answer(eight.as_slice(), &[Item::Star]) == Some(Err(Fault::TooMany)),
        answer(eight.as_slice(), &[Item::Node(0), Item::Star]) == Some(Ok((1 << 56) - 1)),
        answer(eight.as_slice(), &[Item::Star, Item::Node(9)]) == Some(Err(Fault::TooMany)),
    ];
    good.iter().filter(|good| **good).count()
}
