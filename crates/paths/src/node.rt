// The number of a node: below 48, as every site's.
ghost use Rattle.std.specs.Prelude.{◌<◌};

#[derive(Clone, Copy)]
pub(crate) struct Node {
    pub(crate) number: u8,
    ghost within: { number < 48 },
}
