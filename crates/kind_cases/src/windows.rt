// Pairs of windows against a search over all seconds of the day.
use crate::pairs;
use clock::Clock;
use kind::{Kind, Sign};

const DAY: u32 = 86400;

// A window by its written bounds and by its first and last second.
struct Window {
    lower: Option<&'static [u8]>,
    upper: Option<&'static [u8]>,
    from: u32,
    to: u32,
}

const WINDOWS: [Window; 10] = [
    Window {
        lower: None,
        upper: None,
        from: 0,
        to: 86399,
    },
    Window {
        lower: None,
        upper: Some(b"0800"),
        from: 0,
        to: 28800,
    },
    Window {
        lower: Some(b"0800"),
        upper: None,
        from: 28800,
        to: 86399,
    },
    Window {
        lower: Some(b"0800:01"),
        upper: None,
        from: 28801,
        to: 86399,
    },
    Window {
        lower: Some(b"1600"),
        upper: Some(b"0800"),
        from: 57600,
        to: 28800,
    },
    Window {
        lower: Some(b"2200"),
        upper: Some(b"0600"),
        from: 79200,
        to: 21600,
    },
    Window {
        lower: Some(b"0500"),
        upper: Some(b"0700"),
        from: 18000,
        to: 25200,
    },
    Window {
        lower: Some(b"1300"),
        upper: Some(b"1559:59"),
        from: 46800,
        to: 57599,
    },
    Window {
        lower: Some(b"0800:01"),
        upper: Some(b"800"),
        from: 28801,
        to: 28800,
    },
    Window {
        lower: Some(b"2359:59"),
        upper: Some(b"2359:59"),
        from: 86399,
        to: 86399,
    },
];

fn clock_of(window: &Window) -> Clock {
    let mut clock = Clock::open();
    if let Some(value) = window.lower {
        let _ = clock.take(b"time", Sign::AtLeast, value);
    }
    if let Some(value) = window.upper {
        let _ = clock.take(b"time", Sign::AtMost, value);
    }
    clock
}

// Seconds are counted round the clock from the window's first: those up to its last are inside.
fn inside(window: &Window, p: u32) -> bool {
    let start = DAY - window.from % DAY;
    (p % DAY + start) % DAY <= (window.to % DAY + start) % DAY
}

// The first second of the day that is inside both.
fn search(a: &Window, b: &Window) -> Option<u32> {
    (0..DAY).find(|p| inside(a, *p) && inside(b, *p))
}

// How many pairs of windows have the common second that the search finds.
pub fn agreeing() -> usize {
    pairs(&WINDOWS, |a, b| {
        clock_of(a).common(&clock_of(b)) == search(a, b)
    })
}
