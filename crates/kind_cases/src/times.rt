// Values of times with the seconds that they write, made by hand.
use clock::second_of;

const TIMES: [(&[u8], Option<u32>); 20] = [
    (b"0", Some(0)),
    (b"5", Some(300)),
    (b"59", Some(3540)),
    (b"930", Some(34200)),
    (b"0930", Some(34200)),
    (b"0930:15", Some(34215)),
    (b"12:30", Some(750)),
    (b"1600", Some(57600)),
    (b"2359", Some(86340)),
    (b"2359:59", Some(86399)),
    (b"60", None),
    (b"2400", None),
    (b"1060", None),
    (b"", None),
    (b"00000", None),
    (b"0800:1", None),
    (b"0800:60", None),
    (b":30", None),
    (b"08a0", None),
    (b"08:00:00", None),
];

// How many values write what the table says.
pub fn agreeing() -> usize {
    TIMES
        .iter()
        .filter(|case| second_of(case.0) == case.1)
        .count()
}
