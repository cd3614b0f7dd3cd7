// A list of at most N items, kept in place. What it holds is `items`, of specs/Items.antt.
ghost use Rattle.std.specs.Prelude.{◌≡◌, ◌≤◌, length};

mod ops;

use std::alloc::AllocError;

// Kept in place, since nothing here may take memory from a heap.
pub struct Table<T, const N: usize> {
    slots: [T; N],
    len: usize,
    ghost within: { len ≤ N },
    ghost whole: { length slots ≡ N },
}

// There is no room for one item more.
#[derive(Clone, Copy, Debug, PartialEq)]
pub struct Full;

// By hand, since over a ghost field `Clone` is not derived for a type with parameters.
impl<T: Copy, const N: usize> Clone for Table<T, N> {
    ghost is_clone = { λ x y. y ≡ x };

    ghost is_infallible = { λ _. Unit {0} };

    fn clone(&self) -> Result<Table<T, N>, AllocError> {
        Ok(*self)
    }
}

impl<T: Copy, const N: usize> Copy for Table<T, N> {}
