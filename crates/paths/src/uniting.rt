// The ports that the paths of a rule's patterns touch.
ghost use Rattle.std.specs.Prelude.{◌≡◌, map, length, Ok};
ghost use Rattle.site.specs.Sites.{plan};
ghost use Rattle.paths.specs.Found.{searched};
ghost use Rattle.paths.specs.Patterns.{items_of};
ghost use Rattle.paths.specs.Unions.{next, united, AllJudged};

use crate::finding::{Fault, search};
use crate::pattern::Pattern;
use crate::ports::PortSet;
use crate::route::Patterned;
use site::Site;

// The union over the patterns, or the number of the first that is refused, and why.
pub fn touched<P: Patterned>(site: &Site, patterns: &[P]) -> Result<PortSet, (usize, Fault)>
    ensures is { result ≡ united (plan site.now).links (length (plan site.now).nodes) 0 (record { bits = 0 }) (map P.items patterns.now) }
    ensures judged { AllJudged (plan site.now).links (length (plan site.now).nodes) (map P.items patterns.now) result }
{
    // A loop with `?`: tried as a `try_fold`, and that its answer is the union or the first refusal stayed open.
    let mut ports = PortSet::empty();
    for (i, pattern) in patterns.iter().enumerate() {
        ports = ports.union(numbered(site, pattern.pattern(), i)?);
    }
    Ok(ports)
}

// The ports of the pattern of number i, or that number and why the pattern is refused.
fn numbered(site: &Site, pattern: &Pattern, i: usize) -> Result<PortSet, (usize, Fault)>
    ensures { result ≡ next (searched (plan site.now).links (length (plan site.now).nodes) (items_of pattern.now)) i Ok }
{
    search(site, pattern).map_err(|fault| (i, fault))
}
