// The second section of a rule: its target, the traffic classes that it speaks of.
ghost use Rattle.std.specs.Prelude.{◌≡◌, ◌≤◌, [], length, IfOk, Ok, Err, MatchResult};
ghost use Rattle.fixed.specs.Items.{items};
ghost use Rattle.site.specs.Sites.{plan};
ghost use Rattle.sections.specs.Meeting.{viewed, read_section};
ghost use Rattle.sections.specs.Targets.{Targets, added_class, target_of, target_read, no_target, target_section};
ghost use Rattle.sections.specs.Classes.{member};

use crate::section::{Section, read};
use fixed::{Table, is_name};
use site::{Cause, Refusal, Site};
use words::{Due, Sign, Word};

// Which classes a list of classes gives: all there are, those in the list, or those not in it.
#[derive(Clone, Copy, Debug, PartialEq)]
pub enum Scope {
    All,
    Only,
    AllBut,
}

// The scope stands beside the list, which is filled one way whatever the scope.
#[derive(Clone, Copy)]
pub struct Target {
    scope: Scope,
    classes: Table<u8, 16>,
}

// What the section expects next.
#[derive(Clone, Copy, Debug, PartialEq)]
pub enum Stage {
    Open,
    First,
    Sign,
    List,
    Class,
    After,
    Close,
    Done,
}

// The target so far.
#[derive(Clone, Copy)]
struct Targeting<'m> {
    site: &'m Site,
    stage: Stage,
    target: Target,
}

impl Target {
    // All classes.
    pub fn all() -> Target
        ensures scope { result.scope ≡ Scope.All }
        ensures classes { items result.classes ≡ [] }
    {
        Target {
            scope: Scope::All,
            classes: Table::new(0),
        }
    }

    pub fn contains(&self, class: u8) -> bool
        ensures { result ≡ member self.now class }
    {
        // The scope first, since the library's `contains` tests all places of so short a list.
        match self.scope {
            Scope::All => true,
            Scope::Only => self.classes.as_slice().contains(&class),
            Scope::AllBut => !self.classes.as_slice().contains(&class),
        }
    }
}

// One class more, if there is room for it and the site has it.
fn add_class(
    site: &Site,
    classes: &mut Table<u8, 16>,
    name: &[u8],
    place: usize,
) -> Result<(), Refusal>
    ensures { MatchResult result
        (λ _. added_class (plan site.now).classes (items classes.old) name.now place ≡ Ok (items classes.new))
        (λ e. added_class (plan site.now).classes (items classes.old) name.now place ≡ Err e) }
{
    // As with a node; one function for both would take the list, its room and the look-up as parameters.
    if !is_name(name) || classes.len() >= 16 {
        return Err(Cause::OverLimit.at(place));
    }
    let class = site.class(name).ok_or(Cause::Undeclared.at(place))?;
    classes.push(class).map_err(|_| Cause::OverLimit.at(place))
}

impl<'m> Targeting<'m> {
    fn new(site: &'m Site) -> Targeting<'m>
        ensures start { target_of result ≡ no_target }
        ensures site { result.site.now ≡ site.now }
    {
        Targeting {
            site,
            stage: Stage::Open,
            target: Target::all(),
        }
    }
}

impl<'m, 't> Section<'t> for Targeting<'m> {
    ghost State = { Targets };

    ghost view = { target_of };

    ghost course = { λ t. target_section (plan t.site.now).classes };

    fn due(&self) -> Option<Due> {
        (self.stage != Stage::Done).then_some(Due::Word)
    }

    fn meet(&mut self, word: Word, bytes: &'t [u8], place: usize) -> Result<(), Refusal> {
        match (self.stage, word) {
            (Stage::Open, Word::Sign(Sign::Open)) => self.stage = Stage::First,
            (Stage::First, Word::Sign(Sign::Star)) => {
                self.target.scope = Scope::All;
                self.stage = Stage::Close;
            }
            (Stage::First, Word::Name) if bytes == b"traffic_class".as_slice() => self.stage =
                Stage::Sign,
            (Stage::Sign, Word::Sign(Sign::Same | Sign::Equals)) => {
                self.target.scope = Scope::Only;
                self.stage = Stage::List;
            }
            (Stage::Sign, Word::Sign(Sign::Differs)) => {
                self.target.scope = Scope::AllBut;
                self.stage = Stage::List;
            }
            (Stage::List, Word::Sign(Sign::Open)) => self.stage = Stage::Class,
            (Stage::Class, Word::Name) => {
                add_class(self.site, &mut self.target.classes, bytes, place)?;
                self.stage = Stage::After;
            }
            (Stage::After, Word::Sign(Sign::Comma)) => self.stage = Stage::Class,
            (Stage::After, Word::Sign(Sign::Close)) => self.stage = Stage::Close,
            (Stage::Close, Word::Sign(Sign::Close)) => self.stage = Stage::Done,
            _ => return Err(Cause::Unexpected.at(place)),
        }
        Ok(())
    }
}

// The section of the target from a place on, and the place after it.
pub fn read_target(site: &Site, text: &[u8], at: usize) -> Result<(Target, usize), Refusal>
    ensures is { viewed target_read result ≡ read_section (target_section (plan site.now).classes) text.now no_target at }
    ensures within { at ≤ length text.now → IfOk result (λ p. p.1 ≤ length text.now) }
{
    let (targeting, end) = read(Targeting::new(site), text, at)?;
    Ok((targeting.target, end))
}
