// Ports, and sets of them: one bit for each end of each link.
ghost use Rattle.std.specs.Prelude.{◌≡◌, ℕ, ◌+◌, ◌*◌, ◌^◌, ◌<◌, ◌≤◌, Bool, true, false, ◌&&◌, ◌||◌, ◌⊎◌, List, length, if◌then◌else◌, Decides, MatchOption, IfSome, Some, None, slice_index_or, ◌==◌, bit_or};
ghost use Rattle.site.specs.Links.{nowhere};
ghost use Rattle.site.specs.Sites.{plan};
ghost use Rattle.paths.specs.Found.{add_end};
ghost use Rattle.paths.specs.Digits.{has};
ghost use Rattle.paths.specs.PortSets.{common_at, is_port, number_of, number_at, holds, lower_end, Shared, Lowest};

use site::{Link, Site};

// A link together with one of its two end nodes.
#[derive(Clone, Copy, Debug, PartialEq, Eq)]
pub struct Port {
    pub link: u8,
    pub node: u8,
}

impl Port {
    pub fn is_in(self, site: &Site) -> bool
        ensures { result ≡ is_port (plan site.now).links self }
    {
        site.is_port(self.link, self.node)
    }
}

#[derive(Clone, Copy, Debug, PartialEq, Eq)]
pub struct PortSet {
    bits: u128,
}

impl PortSet {
    pub fn empty() -> PortSet
        ensures bits { result.bits ≡ 0 }
        ensures none { (ls : List Link) (q : Port) → holds ls result q ≡ false }
    {
        PortSet { bits: 0 }
    }

    pub fn union(self, other: PortSet) -> PortSet
        ensures bits { result.bits ≡ bit_or self.bits other.bits }
        ensures each { (k : ℕ) → has result.bits k ≡ (has self.bits k || has other.bits k) }
    {
        PortSet {
            bits: self.bits | other.bits,
        }
    }

    #[tactic(auto, unfolding(crate::specs::Digits::has))]
    fn at(self, k: u8) -> bool
        requires { k < 128 }
        ensures { result ≡ has self.bits k }
    {
        (self.bits >> k) % 2 == 1
    }

    #[tactic(auto, using(std::proofs::lemmas::Nat::one_shl))]
    fn with(self, k: u8) -> PortSet
        requires { k < 128 }
        ensures { result.bits ≡ bit_or self.bits (2 ^ k) }
    {
        PortSet {
            bits: self.bits | (1u128 << k),
        }
    }

    // Both ports of a link.
    pub(crate) fn with_link(self, link: u8) -> PortSet
        requires { link < 64 }
        ensures { result.bits ≡ bit_or (bit_or self.bits (2 ^ (2 * link))) (2 ^ (2 * link + 1)) }
    {
        self.with(2 * link).with(2 * link + 1)
    }

    // The port of a link at a node, where it has one.
    pub(crate) fn with_end(self, i: u8, link: Link, node: u8) -> PortSet
        requires { i < 64 }
        ensures { result.bits ≡ add_end self.bits i link node }
    {
        number_at(i, link, node).map_or(self, |k| self.with(k))
    }

    pub(crate) fn is_empty(self) -> bool
        ensures { result ≡ (self.bits == 0) }
    {
        self.bits == 0
    }

    // The port is put in; false, and nothing altered, where the site has no such port.
    // A bool, as the `insert` of a set in std: the answer is a test with nothing beside it, so a Result would be no plainer.
    pub fn insert(&mut self, site: &Site, port: Port) -> bool
        ensures test { result ≡ is_port (plan site.now).links port }
        ensures set { self.new.bits ≡ (if result then bit_or self.old.bits (2 ^ number_of (plan site.now).links port) else self.old.bits) }
        ensures each { (q : Port) → Decides (holds (plan site.now).links self.new q) ((holds (plan site.now).links self.old q ≡ true) ⊎ ((result ≡ true) × (q ≡ port))) }
    {
        let Some(k) = number_of(site.links(), port) else {
            return false;
        };
        *self = self.with(k);
        true
    }

    pub fn contains(&self, site: &Site, port: Port) -> bool
        ensures { result ≡ holds (plan site.now).links self.now port }
    {
        number_of(site.links(), port).is_some_and(|k| self.at(k))
    }

    // The lowest port of both sets: by link, and of one link by node.
    pub fn lowest_common(&self, site: &Site, other: &PortSet) -> Option<Port>
        ensures { MatchOption result ((q : Port) → Shared (plan site.now).links self.now other.now q → ⊥) (λ p. Lowest (plan site.now).links self.now other.now p) }
    {
        first_common(site.links(), self, other)
    }

    pub fn meets(&self, site: &Site, other: &PortSet) -> bool
        ensures yes { result ≡ true → (p : Port) × Shared (plan site.now).links self.now other.now p }
        ensures no { result ≡ false → (p : Port) → Shared (plan site.now).links self.now other.now p → ⊥ }
    {
        self.lowest_common(site, other).is_some()
    }
}

// The number of a port, where the links have it.
fn number_of(links: &[Link], port: Port) -> Option<u8>
    requires { length links.now ≤ 64 }
    ensures { MatchOption result (is_port links.now port ≡ false) (λ k. (is_port links.now port ≡ true) × (k ≡ number_of links.now port) × (k < 128)) }
{
    let link = links.get(usize::from(port.link))?;
    number_at(port.link, *link, port.node)
}

// The number of the port of link i at a node, where the node is one of its ends.
fn number_at(i: u8, link: Link, node: u8) -> Option<u8>
    requires { i < 64 }
    ensures is { result ≡ number_at i link node }
    ensures within { IfSome result (λ k. k < 128) }
{
    if link.a == node {
        Some(2 * i)
    } else if link.b == node {
        Some(2 * i + 1)
    } else {
        None
    }
}

// The lowest port of both sets, of the first link that has one.
fn first_common(links: &[Link], one: &PortSet, other: &PortSet) -> Option<Port>
    requires { length links.now ≤ 64 }
    ensures { MatchOption result
        ((i : ℕ) → i < length links.now → common_at one.now other.now i (slice_index_or links.now i nowhere) ≡ None)
        (λ p. (i : ℕ) × (i < length links.now) × (common_at one.now other.now i (slice_index_or links.now i nowhere) ≡ Some p) × ((j : ℕ) → j < i → common_at one.now other.now j (slice_index_or links.now j nowhere) ≡ None)) }
{
    links
        .iter()
        .enumerate()
        .find_map(|(i, link)| common_at(i as u8, *link, one, other))
}

// Of the ports of link i in both sets, the lower.
fn common_at(i: u8, link: Link, one: &PortSet, other: &PortSet) -> Option<Port>
    requires { i < 64 }
    ensures { result ≡ common_at one.now other.now i link }
{
    let node = lower_end(
        link,
        both_at(one, other, 2 * i),
        both_at(one, other, 2 * i + 1),
    );
    node.map(|node| Port { link: i, node })
}

fn both_at(one: &PortSet, other: &PortSet, k: u8) -> bool
    requires { k < 128 }
    ensures { result ≡ (has one.now.bits k && has other.now.bits k) }
{
    one.at(k) && other.at(k)
}

// Of the ends of a link whose port counts, the lower.
fn lower_end(link: Link, a: bool, b: bool) -> Option<u8>
    ensures { result ≡ lower_end link a b }
{
    match (a, b) {
        (true, true) => Some(link.a.min(link.b)),
        (true, false) => Some(link.a),
        (false, true) => Some(link.b),
        (false, false) => None,
    }
}
