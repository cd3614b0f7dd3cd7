// Pairs of comparisons of days against sets of days as bits.
use crate::pairs;
use day::Day;
use kind::{Kind, Sign};
use std::array;

const NAMES: [&[u8]; 7] = [
    b"Monday",
    b"Tuesday",
    b"Wednesday",
    b"Thursday",
    b"Friday",
    b"Saturday",
    b"Sunday",
];

const SIGNS: [Sign; 4] = [Sign::Equal, Sign::NotEqual, Sign::AtLeast, Sign::AtMost];

// The days that each sign leaves, by the day compared with: a bit for each day, Monday's lowest.
const LEFT: [[u8; 7]; 4] = [
    [1, 2, 4, 8, 16, 32, 64],
    [126, 125, 123, 119, 111, 95, 63],
    [127, 126, 124, 120, 112, 96, 64],
    [1, 3, 7, 15, 31, 63, 127],
];

// A condition by one comparison, and the bits of the days that it leaves.
#[derive(Drop)]
struct Case {
    day: Day,
    bits: u8,
}

fn case_of(sign: Sign, name: &[u8], bits: u8) -> Case {
    let mut day = Day::open();
    let _ = day.take(b"day", sign, name);
    Case { day, bits }
}

// The lowest bit of both.
fn search(a: u8, b: u8) -> Option<u8> {
    (0..7).find(|day| (a & b) >> day & 1 == 1)
}

// How many pairs of comparisons have the common day that the bits show.
pub fn agreeing() -> usize {
    let all: [Case; 28] = array::from_fn(|k| case_of(
        SIGNS[k / 7],
        NAMES[k % 7],
        LEFT[k / 7][k % 7],
    ));
    pairs(&all, |a, b| a.day.common(&b.day) == search(a.bits, b.bits))
}
