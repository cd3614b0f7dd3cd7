// A walk over the pairs of a list's rules, by the first and then by the second position.
ghost use Rattle.std.specs.Prelude.{◌≡◌, ◌+◌, ◌<◌, ◌≤◌, length, MatchOption};
ghost use Rattle.std.specs.Iterator.{at_most};
ghost use Rattle.pairs.specs.Walking.{left, Comes};

use rules::Rule;

// Two rules, the first before the second, and their positions.
#[derive(Drop)]
pub(crate) struct Pair<'r, K> {
    pub(crate) first: usize,
    pub(crate) second: usize,
    pub(crate) one: &'r Rule<K>,
    pub(crate) other: &'r Rule<K>,
}

// The pairs from the two positions on; where the second is past the rules, the first is at their end.
// By hand: std has no iterator over the pairs of a slice, and one of our own has to hold where it is.
#[derive(Drop)]
pub(crate) struct Pairs<'r, K> {
    rules: &'r [Rule<K>],
    first: usize,
    second: usize,
    ghost in_turn: { first < second },
    ghost at_end: { length rules.now ≤ second → length rules.now ≤ first + 1 },
}

impl<'r, K> Pairs<'r, K> {
    pub(crate) fn of(rules: &'r [Rule<K>]) -> Pairs<'r, K>
        ensures rules { result.rules.now ≡ rules.now }
        ensures first { result.first ≡ 0 }
        ensures second { result.second ≡ 1 }
    {
        Pairs {
            rules,
            first: 0,
            second: 1,
        }
    }
}

impl<'r, K> Iterator for Pairs<'r, K> {
    type Item = Pair<'r, K>;

    ghost next_gives = { λ s r t. (t.rules.now ≡ s.rules.now) × MatchOption r (length s.rules.now ≤ s.first + 1) (λ p. Comes s.rules.now s.first s.second t.first t.second p) };

    ghost remaining = { λ s. at_most (left (length s.rules.now) s.first s.second) };

    fn next(&mut self) -> Option<Pair<'r, K>> {
        let other = self.rules.get(self.second)?;
        let pair = Pair {
            first: self.first,
            second: self.second,
            one: &self.rules[self.first],
            other,
        };
        if self.second + 1 < self.rules.len() {
            self.second += 1;
        } else {
            self.first += 1;
            self.second = self.first + 1;
        }
        Some(pair)
    }
}
