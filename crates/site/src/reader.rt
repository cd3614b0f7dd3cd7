// Reading a map: its fields one after another, and then the seal.
ghost use Rattle.std.specs.Prelude.{◌≡◌, ◌+◌, ◌*◌, length};
ghost use Rattle.site.specs.Links.{linked};
ghost use Rattle.site.specs.Plans.{plan_of};
ghost use Rattle.site.specs.Maps.{blank, fields, sealable, every_node_linked, drafted};

use crate::draft::Draft;
use crate::parts::Link;
use crate::refusals::{Cause, Refusal};

// Declares the fields of a map in their order.
pub(crate) fn declare_all(bytes: &[u8]) -> Result<Draft, Refusal>
    ensures { drafted result ≡ fields (length bytes.now) 0 blank bytes.now }
{
    let mut draft = Draft::new();
    let mut rest = bytes;
    let mut at = 0;
    loop {
        match rest {
            [] => return Ok(draft),
            [tag, hi, lo, tail @ ..] => {
                let len = length_of(*hi, *lo);
                if tail.len() < len {
                    return Err(Cause::CutShort.at(at));
                }
                // Not by `map_err`: past its closure the proof did not close.
                if let Err(cause) = draft.declare(*tag, &tail[0..len]) {
                    return Err(cause.at(at));
                }
                rest = &tail[len..];
                at += 3 + len;
            }
            _ => return Err(Cause::CutShort.at(at)),
        }
    }
}

// The length that two bytes give, the high one first.
fn length_of(hi: u8, lo: u8) -> usize
    ensures { result ≡ hi * 256 + lo }
{
    usize::from(u16::from_be_bytes([hi, lo]))
}

impl Draft {
    // Whether there is a node, a class and a user, and each node has a link.
    pub(crate) fn is_sealable(&self) -> bool
        ensures { result ≡ sealable (plan_of self.now) }
    {
        let nodes = self.nodes.len();
        nodes > 0
            && self.classes.len() > 0
            && self.users.len() > 0
            && are_linked(self.links.as_slice(), nodes as u8)
    }
}

// Whether each of the first so many nodes has a link.
fn are_linked(links: &[Link], nodes: u8) -> bool
    ensures { result ≡ every_node_linked links.now nodes }
{
    (0..nodes).all(|node| is_linked(links, node))
}

fn is_linked(links: &[Link], node: u8) -> bool
    ensures { result ≡ linked links.now node }
{
    links.iter().any(|link| link.ends_at(node))
}
