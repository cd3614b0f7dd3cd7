// The path of a rule that touches a port.
ghost use Rattle.std.specs.Prelude.{◌≡◌, ◌≤◌, map, length, MatchOption};
ghost use Rattle.site.specs.Sites.{plan};
ghost use Rattle.rules.specs.Rules.{rule_of};
ghost use Rattle.book.specs.Drawing.{DrawnAt, NoneDrawn};

use paths::{Port, own_path};
use rules::Rule;
use site::Site;

// Draws a path of the rule at a position that touches the port, if there is such a rule and such a path.
// Five parameters: the book's site and standing rules, and what is asked; no other call takes these five.
pub(crate) fn draw<K>(
    site: &Site,
    rules: &[Rule<K>],
    position: usize,
    port: Port,
    out: &mut [u8],
) -> Option<usize>
    requires { 48 ≤ length out.old }
    ensures { MatchOption result ((out.new ≡ out.old) × NoneDrawn (plan site.now) (map rule_of rules.now) position port) (λ n. DrawnAt (plan site.now) (map rule_of rules.now) position port out.old n out.new) }
{
    let rule = rules.get(position)?;
    own_path(site, rule.routes.as_slice(), port, out)
}
