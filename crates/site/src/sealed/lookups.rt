// What can be asked of a sealed site.
ghost use Rattle.std.specs.Prelude.{◌≡◌, ◌≤◌, map, length, MatchOption};
ghost use Rattle.std.specs.List.{slice_get};
ghost use Rattle.std.specs.Option.{option_map};
ghost use Rattle.fixed.specs.Items.{items};
ghost use Rattle.fixed.specs.Names.{spelling};
ghost use Rattle.fixed.specs.Rosters.{names, number_of, First, Absent};
ghost use Rattle.site.specs.Links.{links_at, links_from};
ghost use Rattle.site.specs.Plans.{is_port, reading_on};
ghost use Rattle.site.specs.Sites.{plan};
ghost use Rattle.site.specs.Users.{called, rank};

use super::Site;
use crate::parts::{Link, Reading};
use crate::users::User;
use fixed::{Name, Named, Roster, Table};

// Nodes, classes and users have calls of their own, each one line over one generic roster: a roster handed out would
// number by `usize` what a map numbers in a byte.
impl Site {
    pub fn node_count(&self) -> usize
        ensures is { result ≡ length (plan self.now).nodes }
        ensures within { result ≤ 48 }
    {
        self.draft.nodes.len()
    }

    pub fn link_count(&self) -> usize
        ensures is { result ≡ length (plan self.now).links }
        ensures within { result ≤ 64 }
    {
        self.draft.links.len()
    }

    pub fn class_count(&self) -> usize
        ensures is { result ≡ length (plan self.now).classes }
        ensures within { result ≤ 32 }
    {
        self.draft.classes.len()
    }

    pub fn user_count(&self) -> usize
        ensures is { result ≡ length (plan self.now).users }
        ensures within { result ≤ 16 }
    {
        self.draft.users.len()
    }

    // The names of the nodes, by number.
    pub fn nodes(&self) -> &[Name]
        ensures { map spelling result.now ≡ (plan self.now).nodes }
    {
        self.draft.nodes.as_slice()
    }

    // The names of the classes, by number.
    pub fn classes(&self) -> &[Name]
        ensures { map spelling result.now ≡ (plan self.now).classes }
    {
        self.draft.classes.as_slice()
    }

    // The users, by number.
    pub fn users(&self) -> &[User]
        ensures names { map called result.now ≡ (plan self.now).users }
        ensures ranks { map rank result.now ≡ (plan self.now).ranks }
    {
        self.draft.users.as_slice()
    }

    // The number of the node of a name.
    pub fn node(&self, name: &[u8]) -> Option<u8>
        ensures is { result ≡ number_of name.now (plan self.now).nodes }
        ensures least { MatchOption result (Absent name.now (plan self.now).nodes) (First name.now (plan self.now).nodes) }
    {
        number_in(&self.draft.nodes, name)
    }

    // The number of the class of a name.
    pub fn class(&self, name: &[u8]) -> Option<u8>
        ensures is { result ≡ number_of name.now (plan self.now).classes }
        ensures least { MatchOption result (Absent name.now (plan self.now).classes) (First name.now (plan self.now).classes) }
    {
        number_in(&self.draft.classes, name)
    }

    // The number of the user of a name.
    pub fn user(&self, name: &[u8]) -> Option<u8>
        ensures is { result ≡ number_of name.now (plan self.now).users }
        ensures least { MatchOption result (Absent name.now (plan self.now).users) (First name.now (plan self.now).users) }
    {
        number_in(&self.draft.users, name)
    }

    pub fn node_name(&self, node: u8) -> Option<Name>
        ensures { option_map spelling result ≡ slice_get (plan self.now).nodes node }
    {
        self.draft.nodes.get(usize::from(node))
    }

    pub fn class_name(&self, class: u8) -> Option<Name>
        ensures { option_map spelling result ≡ slice_get (plan self.now).classes class }
    {
        self.draft.classes.get(usize::from(class))
    }

    pub fn user_name(&self, user: u8) -> Option<Name>
        ensures { option_map spelling result ≡ slice_get (plan self.now).users user }
    {
        Some(self.draft.users.get(usize::from(user))?.name)
    }

    // The rank of a user; the smaller, the weightier.
    pub fn rank(&self, user: u8) -> Option<u8>
        ensures { result ≡ slice_get (plan self.now).ranks user }
    {
        Some(self.draft.users.get(usize::from(user))?.rank)
    }

    pub fn links(&self) -> &[Link]
        ensures { result.now ≡ (plan self.now).links }
    {
        self.draft.links.as_slice()
    }

    // The numbers of a node's links, ascending; none for a node that is not declared.
    // Pushed one by one, since a list of fixed capacity is not collected into.
    pub fn links_of(&self, node: u8) -> Table<u8, 64>
        ensures { items result ≡ links_at (plan self.now).links node }
    {
        let links = self.links();
        let mut numbers = Table::new(0);
        for (i, link) in links.iter().enumerate() {
            if link.ends_at(node) {
                let _ = numbers.push(i as u8);
            }
        }
        numbers
    }

    // Whether a link and a node make a port.
    pub fn is_port(&self, link: u8, node: u8) -> bool
        ensures { result ≡ is_port (plan self.now) link node }
    {
        self.links()
            .get(usize::from(link))
            .is_some_and(|joint| joint.ends_at(node))
    }

    pub fn reading(&self) -> Reading
        ensures { result ≡ reading_on (plan self.now) }
    {
        self.draft.reading.unwrap_or(Reading::Implied)
    }
}

// A number of a roster whose numbers fit a byte, as those of a map do.
fn number_in<T: Named, const N: usize>(roster: &Roster<T, N>, name: &[u8]) -> Option<u8>
    requires { N ≤ 256 }
    ensures is { result ≡ number_of name.now (names T.called roster.now) }
    ensures least { MatchOption result (Absent name.now (names T.called roster.now)) (First name.now (names T.called roster.now)) }
{
    let number = roster.number(name)?;
    Some(number as u8)
}
