// The bytes of a map, field by field, in place.
use fixed::Table;

// A table, so that no case needs memory; what it has no room for is left out.
#[derive(Drop)]
pub struct Map {
    bytes: Table<u8, 512>,
}

impl Map {
    pub fn new() -> Map {
        Map {
            bytes: Table::new(0),
        }
    }

    pub fn node(&mut self, number: u8) {
        self.field(1, &[b'a' + number % 26]);
    }

    pub fn link(&mut self, from: u8, to: u8) {
        self.field(2, &[from, to]);
    }

    // One class and one user, so that the map can be sealed.
    pub fn finish(&mut self) {
        self.field(3, b"c");
        self.field(4, b"\x01u");
    }

    // A field of fewer than 256 bytes.
    fn field(&mut self, tag: u8, body: &[u8]) {
        self.bytes
            .extend_from_slice(&[tag, 0, (body.len() % 256) as u8]);
        self.bytes.extend_from_slice(body);
    }

    pub fn as_slice(&self) -> &[u8] {
        self.bytes.as_slice()
    }
}
