// Random sites of two to five nodes, with random patterns: each answer against a trial of every order of the nodes.
use crate::answer::{mask, pattern, told};
use crate::draft::Map;
use fixed::Table;
use paths::{Fault, Item};
use site::{Link, Site};

pub const ALL: usize = 200;

#[derive(Drop)]
struct Dice {
    state: u64,
}

impl Dice {
    fn roll(&mut self, sides: u8) -> u8 {
        self.state = self
            .state
            .wrapping_mul(6364136223846793005)
            .wrapping_add(1442695040888963407);
        let high = self.state / 8589934592;
        (high % sides.max(1) as u64 % 256) as u8
    }
}

// A row of nodes, each linked to the next, and some links more.
fn site(dice: &mut Dice, nodes: u8) -> Map {
    let mut map = Map::new();
    for n in 0..nodes {
        map.node(n);
    }
    for n in 0..nodes {
        for m in 0..n {
            if n - m == 1 || dice.roll(2) == 0 {
                map.link(n, m);
            }
        }
    }
    map.finish();
    map
}

fn items(dice: &mut Dice, nodes: u8) -> [Item; 4] {
    let mut made = [Item::Star; 4];
    for slot in made.iter_mut() {
        let side = dice.roll(nodes % 8 + 2);
        if side < nodes {
            *slot = Item::Node(side);
        }
    }
    made
}

// The row that a number stands for: its digits, in base one more than the nodes there are, up to a digit past them.
fn row(code: u32, nodes: u8) -> Table<u8, 5> {
    let mut made = Table::new(0);
    let mut rest = code;
    let base = nodes as u32 + 1;
    for _ in 0..5 {
        let digit = (rest % base % 256) as u8;
        if digit >= nodes {
            break;
        }
        let _ = made.push(digit);
        rest /= base;
    }
    made
}

// The ports that the row touches, where it is a path.
fn ports(links: &[Link], row: &[u8]) -> Option<u64> {
    if let [n] = row {
        return Some(mask(links, |_, link| [link.a == *n, link.b == *n]));
    }
    let mut bits = 0;
    let mut last: Option<u8> = None;
    for (i, n) in row.iter().enumerate() {
        if row.iter().take(i).any(|m| m == n) {
            return None;
        }
        if let Some(m) = last {
            let link = mask(links, |_, link| [link.joins(m, *n); 2]);
            if link == 0 {
                return None;
            }
            bits |= link;
        }
        last = Some(*n);
    }
    Some(bits)
}

// Whether the row is one block after another, one for each item: a star takes none of its nodes, or one more.
fn blocks(items: &[Item], row: &[u8]) -> bool {
    match (items, row) {
        ([], _) => row.is_empty(),
        // What is left, without a trial of each way to take it.
        ([Item::Star], _) => true,
        ([Item::Node(m), rest @ ..], [n, after @ ..]) => m == n && blocks(rest, after),
        ([Item::Star, rest @ ..], [_, after @ ..]) => blocks(rest, row) || blocks(items, after),
        ([Item::Star, rest @ ..], []) => blocks(rest, row),
        ([Item::Node(_), ..], []) => false,
    }
}

// Whether the items stand for the row: with a star, for two nodes or more.
fn stands(items: &[Item], row: &[u8]) -> bool {
    blocks(items, row) && (row.len() > 1 || !items.contains(&Item::Star))
}

fn expected(links: &[Link], nodes: u8, items: &[Item]) -> Result<u64, Fault> {
    let mut bits = 0;
    for code in 0..7776 {
        let made = row(code, nodes);
        if stands(items, made.as_slice()) {
            bits |= ports(links, made.as_slice()).unwrap_or(0);
        }
    }
    if bits == 0 {
        Err(Fault::NoPath)
    } else {
        Ok(bits)
    }
}

fn agrees(dice: &mut Dice) -> bool {
    let nodes = dice.roll(4) % 4 + 2;
    let map = site(dice, nodes);
    let all = items(dice, nodes);
    let count = dice.roll(4) as usize % 4 + 1;
    let some = &all[0..count];
    Site::read(map.as_slice()).is_ok_and(|site| {
        told(&site, &pattern(some)) == expected(site.links(), nodes, some)
    })
}

pub fn agreeing() -> usize {
    let mut dice = Dice { state: 2026 };
    let mut good = 0;
    for _ in 0..ALL {
        good += usize::from(agrees(&mut dice));
    }
    good
}
