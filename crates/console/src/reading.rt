// What is read: all of it, if it is not too long.
ghost use Rattle.std.specs.Prelude.{◌≡◌, ◌<◌, ◌≤◌, length, IfOk, IfSome, MatchOption};
ghost use Rattle.console.specs.declared.reading.TheConstants.{MOST};

use std::alloc::Global;
use std::io;
use std::io::Read;

// The longest map and the longest rule text that are read, in bytes.
const MOST: usize = 65536;

// All that a reader gives, if it is not longer than MOST bytes.
pub fn read_whole<R: Read + Drop>(heap: Global, from: R) -> io::Result<Option<Vec<u8>>>
    ensures short { IfOk result (λ o. IfSome o (λ v. length v.items ≤ MOST)) }
    ensures whole { IfSome (R.remaining from) (λ xs. IfOk result (λ o. MatchOption o (MOST < length xs) (λ v. v.items ≡ xs))) }
{
    let mut bytes = Vec::new(heap);
    from.take(MOST as u64 + 1).read_to_end(&mut bytes)?;
    Ok((bytes.len() <= MOST).then_some(bytes))
}
