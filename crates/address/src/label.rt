// An address as four dotted numbers.
ghost use Rattle.std.specs.Prelude.{◌≡◌, ◌+◌, ◌<◌, ◌≤◌, [], ◌∷◌, ◌++◌, length};
ghost use Rattle.fixed.specs.Items.{items};
ghost use Rattle.address.specs.Labels.{digits_of, address_text};

use fixed::Table;

// Adds a byte, for which there is room.
fn put(text: &mut Table<u8, 15>, b: u8)
    requires { length (items text.old) < 15 }
    ensures { items text.new ≡ items text.old ++ b ∷ [] }
{
    let _ = text.push(b);
}

// Adds a number without leading zeros. By hand: three digits at most, and what is stated names each of them.
fn put_number(text: &mut Table<u8, 15>, n: u8)
    requires { length (items text.old) ≤ 12 }
    ensures text { items text.new ≡ items text.old ++ digits_of n }
    ensures short { length (items text.new) ≤ length (items text.old) + 3 }
{
    if n >= 100 {
        put(text, b'0' + n / 100);
    }
    if n >= 10 {
        put(text, b'0' + n / 10 % 10);
    }
    put(text, b'0' + n % 10);
}

// An address as text, for which there is always room. Written out, since a loop would tell the first part, before which no dot stands, from the others.
pub(crate) fn label_of(p: &[u8; 4]) -> Table<u8, 15>
    ensures { items result ≡ address_text p.now }
{
    let mut text = Table::new(0);
    put_number(&mut text, p[0]);
    put(&mut text, b'.');
    put_number(&mut text, p[1]);
    put(&mut text, b'.');
    put_number(&mut text, p[2]);
    put(&mut text, b'.');
    put_number(&mut text, p[3]);
    text
}
