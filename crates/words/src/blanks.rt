// The blanks between words: space, tab, carriage return and line feed.
ghost use Rattle.std.specs.Prelude.{◌≡◌, ◌≤◌, length};
ghost use Rattle.std.specs.List.{prefix_len};
ghost use Rattle.words.specs.Words.{blank, More, any_more};

fn is_blank(b: u8) -> bool
    ensures { result ≡ blank b }
{
    matches!(b, b' ' | b'\t' | b'\r' | b'\n')
}

// How many blanks stand at the front.
pub(crate) fn blank_run(part: &[u8]) -> usize
    ensures is { result ≡ prefix_len blank part.now }
    ensures within { result ≤ length part.now }
{
    part.iter().take_while(|b| is_blank(**b)).count()
}

// Whether a byte other than a blank stands at a place or after it.
pub fn more(text: &[u8], place: usize) -> bool
    ensures is { result ≡ any_more text.now place }
    ensures law { More text.now place result }
{
    let from = place.min(text.len());
    let rest = &text[from..];
    blank_run(rest) < rest.len()
}
