// The address that the comparisons of two rules choose.
ghost use Rattle.std.specs.Prelude.{◌≡◌, ◌++◌};
ghost use Rattle.address.specs.Addresses.{entries};
ghost use Rattle.address.specs.Choices.{fixed_at, LeastFree, PartOf, Chosen};

use crate::address::Address;
use crate::entry::Entry;
use std::array;

// The number that an `==` gives a part, if any does.
fn fixed_at(entries: &[Entry], part: usize) -> Option<u8>
    ensures { result ≡ fixed_at part entries.now }
{
    entries.iter().find_map(|entry| entry.fixed(part))
}

// The least value that no excluded block of two rules has at a part.
fn least_free(first: &Address, second: &Address, part: usize) -> u8
    ensures { LeastFree part (entries first.now ++ entries second.now) result }
{
    let (first, second) = (first.entries(), second.entries());
    let mut candidate = 0;
    'candidates: loop {
        for entry in first.iter().chain(second) {
            if entry.excludes(part, candidate) {
                candidate += 1;
                continue 'candidates;
            }
        }
        break 'candidates candidate;
    }
}

// The value of a part: the fixed one, or else the least free one.
fn part_of(first: &Address, second: &Address, part: usize) -> u8
    ensures { PartOf (entries first.now ++ entries second.now) part result }
{
    fixed_at(first.entries(), part)
        .or_else(|| fixed_at(second.entries(), part))
        .unwrap_or_else(|| least_free(first, second, part))
}

// The address that the comparisons of two rules choose.
pub(crate) fn choose(first: &Address, second: &Address) -> [u8; 4]
    ensures { Chosen (entries first.now ++ entries second.now) result }
{
    array::from_fn(|part| part_of(first, second, part))
}
