// Pairs of sets of addresses with their common address, made by hand.
use address::Address;
use kind::{Kind, Sign};

// A comparison for each of two rules, none where the value is empty, and the common address.
struct Case {
    first: (Sign, &'static [u8]),
    second: (Sign, &'static [u8]),
    common: Option<[u8; 4]>,
}

const CASES: [Case; 12] = [
    Case {
        first: (Sign::Equal, b"131.1.*.*"),
        second: (Sign::NotEqual, b"131.1.0.*"),
        common: Some([131, 1, 1, 0]),
    },
    Case {
        first: (Sign::Equal, b"131.1.*.*"),
        second: (Sign::NotEqual, b"131.*.*.*"),
        common: None,
    },
    Case {
        first: (Sign::NotEqual, b"9.0.0.0"),
        second: (Sign::Equal, b""),
        common: Some([0, 1, 1, 1]),
    },
    Case {
        first: (Sign::Equal, b"10.*.*.*"),
        second: (Sign::Equal, b"11.*.*.*"),
        common: None,
    },
    Case {
        first: (Sign::Equal, b"10.*.*.*"),
        second: (Sign::Equal, b"10.0.7.*"),
        common: Some([10, 0, 7, 0]),
    },
    Case {
        first: (Sign::NotEqual, b"0.*.*.*"),
        second: (Sign::NotEqual, b"1.*.*.*"),
        common: Some([2, 0, 0, 0]),
    },
    Case {
        first: (Sign::Equal, b"1.2.3.4"),
        second: (Sign::NotEqual, b"1.2.3.4"),
        common: None,
    },
    Case {
        first: (Sign::Equal, b"1.2.3.4"),
        second: (Sign::NotEqual, b"1.2.3.5"),
        common: Some([1, 2, 3, 4]),
    },
    Case {
        first: (Sign::Equal, b"1.2.3.*"),
        second: (Sign::NotEqual, b"1.2.3.0"),
        common: Some([1, 2, 3, 1]),
    },
    Case {
        first: (Sign::NotEqual, b"*.*.*.*"),
        second: (Sign::Equal, b""),
        common: None,
    },
    Case {
        first: (Sign::Equal, b"1.*.3.*"),
        second: (Sign::Equal, b"256.0.0.0"),
        common: Some([0, 0, 0, 0]),
    },
    Case {
        first: (Sign::Equal, b""),
        second: (Sign::Equal, b""),
        common: Some([0, 0, 0, 0]),
    },
];

fn address_of(comparison: &(Sign, &'static [u8])) -> Address {
    let mut address = Address::open();
    let _ = address.take(b"hostIP", comparison.0, comparison.1);
    address
}

// How many pairs have the common address that the table says.
pub fn agreeing() -> usize {
    CASES
        .iter()
        .filter(|case| address_of(&case.first).common(&address_of(&case.second)) == case.common)
        .count()
}
