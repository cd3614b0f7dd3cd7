// Tables filled to their limit and one past it, and what comes first there.
use crate::table::{Refused, refused};
use std::alloc::{AllocError, Global};

// How many nodes, links, classes and users a map has, one more field by its tag and body, and how the map is refused,
// if it is.
pub struct Case {
    nodes: u8,
    links: u8,
    classes: u8,
    users: u8,
    more: Option<(u8, &'static [u8])>,
    refused: Option<Refused>,
}

// A node field has 5 bytes, a link field 5, a class field 5, a user field 6.
pub static CASES: [Case; 14] = [
    // Each table at its limit.
    Case {
        nodes: 48,
        links: 48,
        classes: 1,
        users: 1,
        more: None,
        refused: None,
    },
    Case {
        nodes: 48,
        links: 64,
        classes: 1,
        users: 1,
        more: None,
        refused: None,
    },
    Case {
        nodes: 2,
        links: 1,
        classes: 32,
        users: 1,
        more: None,
        refused: None,
    },
    Case {
        nodes: 2,
        links: 1,
        classes: 1,
        users: 16,
        more: None,
        refused: None,
    },
    // Each table one past it.
    Case {
        nodes: 49,
        links: 49,
        classes: 1,
        users: 1,
        more: None,
        refused: Some((5, 240)),
    },
    Case {
        nodes: 48,
        links: 65,
        classes: 1,
        users: 1,
        more: None,
        refused: Some((5, 560)),
    },
    Case {
        nodes: 2,
        links: 1,
        classes: 33,
        users: 1,
        more: None,
        refused: Some((5, 175)),
    },
    Case {
        nodes: 2,
        links: 1,
        classes: 1,
        users: 17,
        more: None,
        refused: Some((5, 116)),
    },
    // A name declared before comes before a full table, a full table before a bad link and before rank 0.
    Case {
        nodes: 48,
        links: 0,
        classes: 0,
        users: 0,
        more: Some((1, b"00")),
        refused: Some((4, 240)),
    },
    Case {
        nodes: 48,
        links: 64,
        classes: 0,
        users: 0,
        more: Some((2, &[0, 0])),
        refused: Some((5, 560)),
    },
    Case {
        nodes: 2,
        links: 1,
        classes: 1,
        users: 16,
        more: Some((4, b"\x00new")),
        refused: Some((5, 116)),
    },
    // Names of 16 and 17 bytes, and a body of 256, whose length is told by the high byte.
    Case {
        nodes: 2,
        links: 1,
        classes: 1,
        users: 1,
        more: Some((3, b"abcdefghijklmno_")),
        refused: None,
    },
    Case {
        nodes: 2,
        links: 1,
        classes: 1,
        users: 1,
        more: Some((3, b"abcdefghijklmno_p")),
        refused: Some((3, 26)),
    },
    Case {
        nodes: 0,
        links: 0,
        classes: 0,
        users: 0,
        more: Some((1, &[b'a'; 256])),
        refused: Some((3, 0)),
    },
];

impl Case {
    // Nodes 00, 01 and so on, in a ring with chords; every other field is complete.
    fn map(&self, heap: Global) -> Result<Vec<u8>, AllocError> {
        let nodes = self.nodes;
        let mut map = Vec::new(heap);
        for i in 0..nodes {
            put(&mut map, 1, format!(in heap; "{i:02}")?.as_bytes())?;
        }
        for i in 0..self.links {
            let (from, step) = if i < nodes { (i, 1) } else { (i - nodes, 2) };
            put(&mut map, 2, &[from, (from % 64 + step) % nodes.max(1)])?;
        }
        for i in 0..self.classes {
            put(&mut map, 3, format!(in heap; "{i:02}")?.as_bytes())?;
        }
        for i in 0..self.users {
            put(&mut map, 4, format!(in heap; "\x01{i:02}")?.as_bytes())?;
        }
        if let Some((tag, body)) = self.more {
            put(&mut map, tag, body)?;
        }
        Ok(map)
    }

    fn agrees(&self, heap: Global) -> Result<bool, AllocError> {
        Ok(refused(self.map(heap)?.as_slice()) == self.refused)
    }
}

fn put(map: &mut Vec<u8>, tag: u8, body: &[u8]) -> Result<(), AllocError> {
    let [.., high, low] = body.len().to_be_bytes();
    map.extend_from_slice(&[tag, high, low])?;
    map.extend_from_slice(body)
}

// How many cases agree.
pub fn agreeing(heap: Global) -> Result<usize, AllocError> {
    let agreeing: Vec<bool> = CASES
        .iter()
        .map(|case| case.agrees(heap))
        .try_collect(heap)?;
    Ok(agreeing.iter().filter(|agrees| **agrees).count())
}
