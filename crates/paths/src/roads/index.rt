// The index of ways on: made from the links, asked by node.
ghost use Rattle.std.specs.Prelude.{◌≡◌, ◌≤◌, [], length, slice_index_or};
ghost use Rattle.fixed.specs.Items.{items};
ghost use Rattle.site.specs.Sites.{plan};
ghost use Rattle.paths.specs.Roads.{steps_of, roads_over, roads_in};

use super::{Roads, Step};
use crate::node::Node;
use fixed::Table;
use site::{Link, Site};
use std::array;

impl Roads {
    pub(crate) fn new(site: &Site) -> Roads
        ensures ways { roads_in result ≡ roads_over (plan site.now).links }
        ensures nodes { result.nodes ≡ length (plan site.now).nodes }
    {
        let links = site.links();
        Roads {
            of: array::from_fn(|node| steps_of(links, node as u8)),
            nodes: site.node_count() as u8,
        }
    }

    pub(crate) fn at(&self, node: Node) -> &[Step]
        ensures { result.now ≡ slice_index_or (roads_in self.now) node.number [] }
    {
        self.of[usize::from(node.number)].as_slice()
    }
}

fn steps_of(links: &[Link], node: u8) -> Table<Step, 64>
    requires { length links.now ≤ 64 }
    ensures { items result ≡ steps_of 0 links.now node }
{
    // A loop: a chain does not collect into a Table.
    let mut steps = Table::new(Step { link: 0, node: 0 });
    for (i, link) in links.iter().enumerate() {
        if link.ends_at(node) {
            let _ = steps.push(Step {
                link: i as u8,
                node: link.far_end(node),
            });
        }
    }
    steps
}
