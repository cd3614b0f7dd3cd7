// A case for each cause of refusal, and for each two causes that meet at one place.
use site::Site;

// The number and the place of a refusal. The number and not the cause: it is what a program prints, so it is tried.
pub type Refused = (u8, usize);

// What it shows, the map, and how it is refused, if it is.
pub struct Case {
    pub shows: &'static str,
    map: &'static [u8],
    refused: Option<Refused>,
}

// How a map is refused, if it is.
pub fn refused(map: &[u8]) -> Option<Refused> {
    let refusal = Site::read(map).err()?;
    Some((refusal.number(), refusal.place))
}

impl Case {
    pub fn agrees(&self) -> bool {
        refused(self.map) == self.refused
    }
}

pub static CASES: [Case; 47] = [
    Case {
        shows: "no field at all",
        map: b"",
        refused: Some((7, 0)),
    },
    Case {
        shows: "a tag alone",
        map: b"\x01",
        refused: Some((1, 0)),
    },
    Case {
        shows: "a tag and one length byte",
        map: b"\x01\x00",
        refused: Some((1, 0)),
    },
    Case {
        shows: "bytes one short of the length",
        map: b"\x01\x00\x02a",
        refused: Some((1, 0)),
    },
    Case {
        shows: "the high length byte first",
        map: b"\x01\x01\x00a",
        refused: Some((1, 0)),
    },
    Case {
        shows: "a later field cut at its length bytes",
        map: b"\x01\x00\x01a\x01\x00",
        refused: Some((1, 4)),
    },
    Case {
        shows: "cut short before unknown tag",
        map: b"\x09\x00\x01",
        refused: Some((1, 0)),
    },
    Case {
        shows: "tag 0",
        map: b"\x00\x00\x00",
        refused: Some((2, 0)),
    },
    Case {
        shows: "tag 6",
        map: b"\x06\x00\x00",
        refused: Some((2, 0)),
    },
    Case {
        shows: "an unknown tag after a good field",
        map: b"\x01\x00\x01a\x07\x00\x00",
        refused: Some((2, 4)),
    },
    Case {
        shows: "a node of no byte",
        map: b"\x01\x00\x00",
        refused: Some((3, 0)),
    },
    Case {
        shows: "a class of no byte",
        map: b"\x03\x00\x00",
        refused: Some((3, 0)),
    },
    Case {
        shows: "a user of no byte",
        map: b"\x04\x00\x00",
        refused: Some((3, 0)),
    },
    Case {
        shows: "a user without a name",
        map: b"\x04\x00\x01\x01",
        refused: Some((3, 0)),
    },
    Case {
        shows: "a byte that no name has",
        map: b"\x01\x00\x02a-",
        refused: Some((3, 0)),
    },
    Case {
        shows: "a letter outside ASCII",
        map: b"\x01\x00\x01\xe9",
        refused: Some((3, 0)),
    },
    Case {
        shows: "not a name before rank 0",
        map: b"\x04\x00\x02\x00-",
        refused: Some((3, 0)),
    },
    Case {
        shows: "a node twice",
        map: b"\x01\x00\x01a\x01\x00\x01a",
        refused: Some((4, 4)),
    },
    Case {
        shows: "a class twice",
        map: b"\x03\x00\x01a\x03\x00\x01a",
        refused: Some((4, 4)),
    },
    Case {
        shows: "a user twice",
        map: b"\x04\x00\x02\x01a\x04\x00\x02\x02a",
        refused: Some((4, 5)),
    },
    Case {
        shows: "declared before comes before rank 0",
        map: b"\x04\x00\x02\x01a\x04\x00\x02\x00a",
        refused: Some((4, 5)),
    },
    Case {
        shows: "case counts",
        map: b"\x01\x00\x01a\x01\x00\x01A",
        refused: Some((7, 8)),
    },
    Case {
        shows: "one name in three tables",
        map: b"\x01\x00\x01a\x01\x00\x01b\x02\x00\x02\x00\x01\x03\x00\x01a\x04\x00\x02\x01a",
        refused: None,
    },
    Case {
        shows: "names like numbers and keywords",
        map: b"\x01\x00\x011\x01\x00\x06permit\x02\x00\x02\x00\x01\x03\x00\x01_\x04\x00\x05\xffdeny",
        refused: None,
    },
    Case {
        shows: "a link of one byte",
        map: b"\x01\x00\x01a\x02\x00\x01\x00",
        refused: Some((6, 4)),
    },
    Case {
        shows: "a link of three bytes",
        map: b"\x01\x00\x01a\x01\x00\x01b\x02\x00\x03\x00\x01\x00",
        refused: Some((6, 8)),
    },
    Case {
        shows: "a link to an undeclared node",
        map: b"\x01\x00\x01a\x01\x00\x01b\x02\x00\x02\x00\x02",
        refused: Some((6, 8)),
    },
    Case {
        shows: "a link from an undeclared node",
        map: b"\x01\x00\x01a\x01\x00\x01b\x02\x00\x02\x02\x00",
        refused: Some((6, 8)),
    },
    Case {
        shows: "a link to a node declared later",
        map: b"\x01\x00\x01a\x02\x00\x02\x00\x01\x01\x00\x01b",
        refused: Some((6, 4)),
    },
    Case {
        shows: "a link to itself",
        map: b"\x01\x00\x01a\x01\x00\x01b\x02\x00\x02\x01\x01",
        refused: Some((6, 8)),
    },
    Case {
        shows: "a link twice",
        map: b"\x01\x00\x01a\x01\x00\x01b\x02\x00\x02\x00\x01\x02\x00\x02\x00\x01",
        refused: Some((6, 13)),
    },
    Case {
        shows: "a link the other way round",
        map: b"\x01\x00\x01a\x01\x00\x01b\x02\x00\x02\x00\x01\x02\x00\x02\x01\x00",
        refused: Some((6, 13)),
    },
    Case {
        shows: "rank 0",
        map: b"\x04\x00\x02\x00a",
        refused: Some((8, 0)),
    },
    Case {
        shows: "a reading of no byte",
        map: b"\x05\x00\x00",
        refused: Some((8, 0)),
    },
    Case {
        shows: "a reading of two bytes",
        map: b"\x05\x00\x02\x01\x01",
        refused: Some((8, 0)),
    },
    Case {
        shows: "reading 0",
        map: b"\x05\x00\x01\x00",
        refused: Some((8, 0)),
    },
    Case {
        shows: "reading 3",
        map: b"\x05\x00\x01\x03",
        refused: Some((8, 0)),
    },
    Case {
        shows: "a second reading",
        map: b"\x05\x00\x01\x01\x05\x00\x01\x01",
        refused: Some((8, 4)),
    },
    Case {
        shows: "a second reading that is none",
        map: b"\x05\x00\x01\x02\x05\x00\x01\x09",
        refused: Some((8, 4)),
    },
    Case {
        shows: "no class",
        map: b"\x01\x00\x01a\x01\x00\x01b\x02\x00\x02\x00\x01\x04\x00\x02\x01u",
        refused: Some((7, 18)),
    },
    Case {
        shows: "no user",
        map: b"\x01\x00\x01a\x01\x00\x01b\x02\x00\x02\x00\x01\x03\x00\x01d",
        refused: Some((7, 17)),
    },
    Case {
        shows: "no node",
        map: b"\x03\x00\x01d\x04\x00\x02\x01u",
        refused: Some((7, 9)),
    },
    Case {
        shows: "no link",
        map: b"\x01\x00\x01a\x03\x00\x01d\x04\x00\x02\x01u",
        refused: Some((7, 13)),
    },
    Case {
        shows: "a node without a link",
        map: b"\x01\x00\x01a\x01\x00\x01b\x01\x00\x01c\x02\x00\x02\x00\x01\x03\x00\x01d\x04\x00\x02\x01u",
        refused: Some((7, 26)),
    },
    Case {
        shows: "a field judged before the seal",
        map: b"\x03\x00\x01d\x04\x00\x02\x01u\x01\x00\x00",
        refused: Some((3, 9)),
    },
    Case {
        shows: "a small site",
        map: b"\x01\x00\x01a\x01\x00\x01b\x02\x00\x02\x00\x01\x03\x00\x01d\x04\x00\x02\x01u",
        refused: None,
    },
    Case {
        shows: "a small site with a reading",
        map: b"\x05\x00\x01\x02\x01\x00\x01a\x01\x00\x01b\x02\x00\x02\x00\x01\x03\x00\x01d\x04\x00\x02\x01u",
        refused: None,
    },
];
