// A map while its fields are being declared.
use crate::parts::{Link, Reading};
use crate::users::User;
use fixed::{NameTable, Roster, Table};

#[derive(Clone, Copy)]
pub struct Draft {
    pub(crate) nodes: NameTable<48>,
    pub(crate) links: Table<Link, 64>,
    pub(crate) classes: NameTable<32>,
    pub(crate) users: Roster<User, 16>,
    pub(crate) reading: Option<Reading>,
}
