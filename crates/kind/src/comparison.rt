// What a condition is offered, and what it answers.

// How a comparison relates its word to its value: `==`, `!=`, `>=`, `<=`.
#[derive(Clone, Copy, Debug, PartialEq, Eq)]
pub enum Sign {
    Equal,
    NotEqual,
    AtLeast,
    AtMost,
}

// Whether a comparison's word belongs to the kind that was asked.
#[derive(Clone, Copy, Debug, PartialEq, Eq)]
pub enum Claim {
    Taken,
    NotMine,
}

// Why a kind declines a comparison of its own word.
#[derive(Clone, Copy, Debug, PartialEq, Eq)]
pub enum Declined {
    BadValue,
    Doubled,
}
