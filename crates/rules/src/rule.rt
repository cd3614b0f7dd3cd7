// A rule, and how it is read from a text.
ghost use Rattle.std.specs.Prelude.{◌≡◌, map};
ghost use Rattle.site.specs.Sites.{plan};
ghost use Rattle.sections.specs.Meeting.{viewed};
ghost use Rattle.sections.specs.Routes.{items_at, place_at};
ghost use Rattle.rules.specs.Grammar.{ReadAsWritten};
ghost use Rattle.rules.specs.Rules.{ports_for, rule_of, blank_rule, read_rule};

use fixed::{Name, Table};
use kind::Kind;
use paths::{Pattern, PortSet, Route, touched};
use sections::{Action, Target, read_action, read_conditions, read_head, read_paths, read_target};
use site::{Cause, Refusal, Site};

// What a rule says, with the places of its id, of each pattern's first sign and of its semicolon.
#[derive(Clone, Copy, Drop)]
pub struct Rule<K> {
    pub id: Name,
    pub place: usize,
    pub user: u8,
    pub rank: u8,
    pub routes: Table<Route, 4>,
    pub target: Target,
    pub condition: K,
    pub action: Action,
    pub semicolon: usize,
    pub ports: PortSet,
}

impl<K: Kind> Rule<K> {
    // What fills a place that holds no rule yet: it speaks of all classes at every point, and touches no port.
    pub fn blank() -> Rule<K>
        ensures { rule_of result ≡ blank_rule K.Kind.sense.everywhere }
    {
        let none = Route {
            pattern: Pattern::new(),
            place: 0,
        };
        Rule {
            id: Name::from_bytes(b"_").unwrap(),
            place: 0,
            user: 0,
            rank: 0,
            routes: Table::new(none),
            target: Target::all(),
            condition: K::open(),
            action: Action::Deny,
            semicolon: 0,
            ports: PortSet::empty(),
        }
    }
}

// The ports that the patterns touch; the first that is refused counts, at its first sign.
fn ports_for(site: &Site, routes: &[Route]) -> Result<PortSet, Refusal>
    ensures { result ≡ ports_for (plan site.now) (map items_at routes.now) (map place_at routes.now) }
{
    touched(site, routes).map_err(|(i, fault)| Cause::from(fault).at(routes[i].place))
}

// The rule from a place on, and the place after its semicolon; a place past the text counts as its end.
// A text is read as a rule exactly when it is a way to write that rule: part after part, and then its paths are searched for.
pub fn read_rule<K: Kind + Drop>(
    site: &Site,
    text: &[u8],
    place: usize,
) -> Result<(Rule<K>, usize), Refusal>
    ensures is { viewed rule_of result ≡ read_rule K.Kind.sense (plan site.now) text.now place }
    ensures law { ReadAsWritten K.Kind.sense (plan site.now) text.now place (viewed rule_of result) }
{
    let head = read_head(site, text, place.min(text.len()))?;
    let (routes, at) = read_paths(site, text, head.end)?;
    let (target, at) = read_target(site, text, at)?;
    let (condition, at) = read_conditions(text, at)?;
    let (closing, end) = read_action(text, at)?;
    let ports = ports_for(site, routes.as_slice())?;
    let rule = Rule {
        id: head.id,
        place: head.place,
        user: head.user,
        rank: head.rank,
        routes,
        target,
        condition,
        action: closing.action,
        semicolon: closing.semicolon,
        ports,
    };
    Ok((rule, end))
}
