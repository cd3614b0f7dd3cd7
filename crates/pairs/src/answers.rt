// What a list of contradicting pairs says.
use paths::Port;

// Which of two contradicting rules gives way; neither where the pair is open.
#[derive(Clone, Copy, Debug, PartialEq, Eq)]
pub enum Mark {
    Open,
    First,
    Second,
}

// Two contradicting rules, by position and by the places of their ids, and where they contradict each other.
#[derive(Drop)]
pub struct Entry<P> {
    pub first: usize,
    pub second: usize,
    pub first_place: usize,
    pub second_place: usize,
    pub port: Port,
    pub class: u8,
    pub point: P,
    pub mark: Mark,
}

// How many pairs there are, and how many of them are open.
#[derive(Clone, Copy, Debug, PartialEq, Eq)]
pub struct Totals {
    pub pairs: usize,
    pub unsettled: usize,
}
