// A line of text that is being put together, up to 128 bytes.
ghost use Rattle.std.specs.Prelude.{◌≡◌, ◌≤◌, [], ◌++◌, length, take, decimal};
ghost use Rattle.std.specs.Option.{option_map, unwrap_or};
ghost use Rattle.fixed.specs.Names.{spelling};
ghost use Rattle.lines.specs.Lines.{written};

use fixed::{Name, Table};

// By hand: what `write!` promises leaves open that it fails, and putting never does.
#[derive(Clone, Copy)]
pub(crate) struct Line {
    text: Table<u8, 128>,
}

impl Line {
    pub(crate) fn new() -> Line
        ensures { written result ≡ [] }
    {
        Line {
            text: Table::new(0),
        }
    }

    pub(crate) fn as_slice(&self) -> &[u8]
        ensures { result.now ≡ written self.now }
    {
        self.text.as_slice()
    }

    // Puts bytes at the end; what is over is cut.
    pub(crate) fn put(&mut self, bytes: &[u8])
        ensures { written self.new ≡ take 128 (written self.old ++ bytes.now) }
    {
        self.text.extend_from_slice(bytes);
    }

    // Puts a number in digits; by hand, since the kit's `itoa` would be one more crate to trust.
    pub(crate) fn put_number(&mut self, n: usize)
        ensures text { written self.new ≡ take 128 (written self.old ++ decimal n) }
        ensures short { length (decimal n) ≤ 20 }
    {
        if n >= 10 {
            self.put_number(n / 10);
        }
        self.put(&[b'0' + (n % 10) as u8]);
    }

    // Puts a name, if there is one.
    pub(crate) fn put_name(&mut self, name: Option<Name>)
        ensures { written self.new ≡ take 128 (written self.old ++ unwrap_or (option_map spelling name) []) }
    {
        if let Some(name) = name {
            self.put(name.as_bytes());
        }
    }
}
