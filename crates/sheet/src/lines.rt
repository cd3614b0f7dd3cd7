// Each kind of line, and the sheet of them all.
ghost use Rattle.std.specs.Prelude.{◌≡◌, IfOk, OnOk, flat_map, string_bytes};
ghost use Rattle.fixed.specs.Names.{spelling};
ghost use Rattle.site.specs.Plans.{reading_on};
ghost use Rattle.site.specs.Sites.{plan};
ghost use Rattle.sheet.specs.Sheets.{Appended, each_from, counts, name_line, link_line, user_line, reading_line, link_note, node_note, sheet_of};

use crate::names::Shown;
use fixed::Name;
use site::Site;
use std::alloc::{AllocError, Global};

// The sheet of a site.
pub fn sheet(heap: Global, site: &Site) -> Result<Vec<u8>, AllocError>
    ensures { IfOk result (λ v. v.items ≡ sheet_of (plan site.now)) }
{
    let mut text = String::new(heap);
    put_counts(&mut text, site)?;
    put_names(&mut text, "node ", site.nodes())?;
    put_links(&mut text, site)?;
    put_names(&mut text, "class ", site.classes())?;
    put_users(&mut text, site)?;
    put_reading(&mut text, site)?;
    put_notes(&mut text, site)?;
    Ok(text.into_bytes())
}

// Each part takes the text and the site: a struct of both would add to each clause that the site stays.
fn put_counts(text: &mut String, site: &Site) -> Result<(), AllocError>
    ensures { OnOk result (Appended (string_bytes text.old) (counts (plan site.now)) (string_bytes text.new)) }
{
    writeln!(
        text,
        "# {} nodes, {} links, {} classes, {} users",
        site.node_count(),
        site.link_count(),
        site.class_count(),
        site.user_count()
    )
}

fn put_names(text: &mut String, word: &str, names: &[Name]) -> Result<(), AllocError>
    ensures { OnOk result (Appended (string_bytes text.old) (flat_map (λ name. name_line word.now (spelling name)) names.now) (string_bytes text.new)) }
{
    for name in names {
        writeln!(text, "{word}{name}")?;
    }
    Ok(())
}

#[tactic(auto, using(std::proofs::lemmas::Grind::common_steps, crate::proofs::Putting::shown_at))]
fn put_links(text: &mut String, site: &Site) -> Result<(), AllocError>
    ensures { OnOk result (Appended (string_bytes text.old) (flat_map (link_line (plan site.now)) (plan site.now).links) (string_bytes text.new)) }
{
    for link in site.links() {
        let a = Shown(site.node_name(link.a));
        let b = Shown(site.node_name(link.b));
        writeln!(text, "link {a} {b}")?;
    }
    Ok(())
}

#[tactic(auto, using(std::proofs::lemmas::Grind::common_steps, crate::proofs::Putting::each_map))]
fn put_users(text: &mut String, site: &Site) -> Result<(), AllocError>
    ensures { OnOk result (Appended (string_bytes text.old) (each_from (user_line (plan site.now)) 0 (plan site.now).users) (string_bytes text.new)) }
{
    for user in site.users() {
        writeln!(text, "user {} {}", user.name, user.rank)?;
    }
    Ok(())
}

fn put_reading(text: &mut String, site: &Site) -> Result<(), AllocError>
    ensures { OnOk result (Appended (string_bytes text.old) (reading_line (reading_on (plan site.now))) (string_bytes text.new)) }
{
    writeln!(text, "reading {}", site.reading())
}

// The links of a node, each by its number and the name of the node at its far end.
fn put_link_notes(text: &mut String, site: &Site, node: u8) -> Result<(), AllocError>
    ensures { OnOk result (Appended (string_bytes text.old) (each_from (link_note (plan site.now) node) 0 (plan site.now).links) (string_bytes text.new)) }
{
    for (i, link) in site.links().iter().enumerate() {
        if link.ends_at(node) {
            let end = Shown(site.node_name(link.far_end(node)));
            write!(text, " {i} ({end})")?;
        }
    }
    Ok(())
}

#[tactic(auto, using(std::proofs::lemmas::Grind::common_steps, crate::proofs::Putting::each_map))]
fn put_notes(text: &mut String, site: &Site) -> Result<(), AllocError>
    ensures { OnOk result (Appended (string_bytes text.old) (each_from (node_note (plan site.now)) 0 (plan site.now).nodes) (string_bytes text.new)) }
{
    for (i, name) in site.nodes().iter().enumerate() {
        write!(text, "# links of {name}:")?;
        put_link_notes(text, site, i as u8)?;
        text.push_str("\n")?;
    }
    Ok(())
}
