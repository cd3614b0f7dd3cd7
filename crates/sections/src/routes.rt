// The first section of a rule: its paths, as up to four patterns.
ghost use Rattle.std.specs.Prelude.{◌≡◌, ◌≤◌, map, length, IfOk, Ok, Err, MatchResult};
ghost use Rattle.fixed.specs.Items.{items};
ghost use Rattle.paths.specs.Patterns.{items_of};
ghost use Rattle.site.specs.Sites.{plan};
ghost use Rattle.sections.specs.Routes.{Paths, added, added_node, kept, items_at, place_at, paths_of, no_paths, path_section, routes_of, paths_read};
ghost use Rattle.sections.specs.Meeting.{viewed, read_section};

use crate::section::{Section, read};
use fixed::{Table, is_name};
use paths::{Item, Pattern, Route};
use site::{Cause, Refusal, Site};
use words::{Due, Sign, Word};

// What the section expects next.
#[derive(Clone, Copy, Debug, PartialEq)]
pub enum Stage {
    Open,
    First,
    Item,
    After,
    Between,
    Next,
    Close,
    Done,
}

// The patterns so far, and the one that is being read, each with the place of its first sign.
// That one stands beside the stage: what the section means keeps the last pattern and its start to the end.
#[derive(Clone, Copy)]
struct Routes<'m> {
    site: &'m Site,
    stage: Stage,
    routes: Table<Route, 4>,
    reading: Route,
}

// One item more, if there is room for it.
fn add(pattern: &mut Pattern, item: Item, place: usize) -> Result<(), Refusal>
    ensures { MatchResult result
        (λ _. added (items_of pattern.old) item place ≡ Ok (items_of pattern.new))
        (λ e. added (items_of pattern.old) item place ≡ Err e) }
{
    pattern.push(item).map_err(|_| Cause::OverLimit.at(place))
}

// One node more, if there is room for it and the site has it.
fn add_node(site: &Site, pattern: &mut Pattern, name: &[u8], place: usize) -> Result<(), Refusal>
    ensures { MatchResult result
        (λ _. added_node (plan site.now).nodes (items_of pattern.old) name.now place ≡ Ok (items_of pattern.new))
        (λ e. added_node (plan site.now).nodes (items_of pattern.old) name.now place ≡ Err e) }
{
    // Of two refusals the one for room counts, so it is asked for before the name is looked up.
    if !is_name(name) || pattern.items().len() >= 12 {
        return Err(Cause::OverLimit.at(place));
    }
    let node = site.node(name).ok_or(Cause::Undeclared.at(place))?;
    add(pattern, Item::Node(node), place)
}

// Keeps a pattern that was read whole.
fn keep(routes: &mut Table<Route, 4>, pattern: Pattern, place: usize)
    ensures patterns { map items_at (items routes.new) ≡ kept (map items_at (items routes.old)) (items_of pattern) }
    ensures places { map place_at (items routes.new) ≡ kept (map place_at (items routes.old)) place }
{
    let _ = routes.push(Route { pattern, place });
}

impl<'m> Routes<'m> {
    fn new(site: &'m Site) -> Routes<'m>
        ensures start { paths_of result ≡ no_paths }
        ensures site { result.site.now ≡ site.now }
    {
        let reading = Route {
            pattern: Pattern::new(),
            place: 0,
        };
        Routes {
            site,
            stage: Stage::Open,
            routes: Table::new(reading),
            reading,
        }
    }
}

impl<'m, 't> Section<'t> for Routes<'m> {
    ghost State = { Paths };

    ghost view = { paths_of };

    ghost course = { λ r. path_section (plan r.site.now).nodes };

    fn due(&self) -> Option<Due> {
        (self.stage != Stage::Done).then_some(Due::Word)
    }

    fn meet(&mut self, word: Word, bytes: &'t [u8], place: usize) -> Result<(), Refusal> {
        match (self.stage, word) {
            (Stage::Open, Word::Sign(Sign::Open)) => self.stage = Stage::First,
            (Stage::First, Word::Sign(Sign::Star)) => {
                add(&mut self.reading.pattern, Item::Star, place)?;
                keep(&mut self.routes, self.reading.pattern, place);
                self.stage = Stage::Close;
            }
            (Stage::First, Word::Sign(Sign::Less)) => {
                self.reading.place = place;
                self.stage = Stage::Item;
            }
            (Stage::Item, Word::Name) => {
                add_node(self.site, &mut self.reading.pattern, bytes, place)?;
                self.stage = Stage::After;
            }
            (Stage::Item, Word::Sign(Sign::Star)) => {
                add(&mut self.reading.pattern, Item::Star, place)?;
                self.stage = Stage::After;
            }
            (Stage::After, Word::Sign(Sign::Comma)) => self.stage = Stage::Item,
            (Stage::After, Word::Sign(Sign::Greater)) => {
                keep(&mut self.routes, self.reading.pattern, self.reading.place);
                self.stage = Stage::Between;
            }
            (Stage::Between, Word::Sign(Sign::Comma)) => self.stage = Stage::Next,
            (Stage::Between, Word::Sign(Sign::Close)) => self.stage = Stage::Done,
            (Stage::Next, Word::Sign(Sign::Less)) if self.routes.len() < 4 => {
                self.reading = Route {
                    pattern: Pattern::new(),
                    place,
                };
                self.stage = Stage::Item;
            }
            (Stage::Next, Word::Sign(Sign::Less)) => return Err(Cause::OverLimit.at(place)),
            (Stage::Close, Word::Sign(Sign::Close)) => self.stage = Stage::Done,
            _ => return Err(Cause::Unexpected.at(place)),
        }
        Ok(())
    }
}

// The section of paths from a place on, and the place after it.
pub fn read_paths(site: &Site, text: &[u8], at: usize) -> Result<(Table<Route, 4>, usize), Refusal>
    ensures is { viewed routes_of result ≡ paths_read (read_section (path_section (plan site.now).nodes) text.now no_paths at) }
    ensures within { at ≤ length text.now → IfOk result (λ p. p.1 ≤ length text.now) }
{
    let (routes, end) = read(Routes::new(site), text, at)?;
    Ok((routes.routes, end))
}
