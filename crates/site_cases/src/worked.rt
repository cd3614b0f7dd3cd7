// Each beginning of the worked map.
use crate::table::{Refused, refused};

pub static MAP: [u8; 91] =
    *b"\x01\x00\x04gate\x01\x00\x04barn\x01\x00\x04mill\x01\x00\x04hill\x02\x00\x02\x00\x01\x02\x00\x02\x01\x02\x02\x00\x02\x02\x03\x02\x00\x02\x01\x03\x03\x00\x04data\x03\x00\x05voice\x03\x00\x05video\x04\x00\x05\x01boss\x04\x00\x05\x03ward\x05\x00\x01\x01";

// Where its fields begin, and where the last one ends.
static FIELDS: [usize; 15] = [0, 7, 14, 21, 28, 33, 38, 43, 48, 55, 63, 71, 79, 87, 91];

// From here on there is a user too, so that a beginning that ends with a field can be sealed.
const SEALABLE: usize = 79;

// How the beginning of so many bytes should be refused, if it should.
fn expected(len: usize) -> Option<Refused> {
    let start = FIELDS.iter().rev().find(|field| **field <= len).copied();
    match start {
        Some(start) if start < len => Some((1, start)),
        _ if len < SEALABLE => Some((7, len)),
        _ => None,
    }
}

pub fn agreeing() -> usize {
    (0..=MAP.len())
        .filter(|len| {
            MAP.get(..*len)
                .is_some_and(|map| refused(map) == expected(*len))
        })
        .count()
}
