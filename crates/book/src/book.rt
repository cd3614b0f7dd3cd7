// The book: rules in order of admission, in lent places, over one site.
ghost use Rattle.std.specs.Prelude.{◌≤◌, length};

mod admission;
mod asking;
mod printing;
mod standing;

use rules::Rule;
use site::Site;

// Its places are lent, since nothing here may take memory, so that how many of them stand is kept beside.
#[derive(Drop)]
pub struct Book<'m, 'a, K> {
    site: &'m Site,
    slots: &'a mut [Rule<K>],
    len: usize,
    ghost within: { len ≤ length slots.now },
}
