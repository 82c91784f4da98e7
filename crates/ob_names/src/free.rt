ghost use Rattle.std.specs.Prelude.{◌≡◌, [], map, IfOk, OnOk};
ghost use Rattle.ob_tree.specs.Names as spec;
ghost use Rattle.ob_names.specs.Forms.{name_ref};
ghost use Rattle.ob_names.specs.Kept.{mention_of};
ghost use Rattle.ob_names.specs.Sets.{with_free};

use crate::form::{NameRef, form_of};
use crate::meaning::Meaning;
use crate::name_set::NameSet;
use crate::walker::Mention;
use crate::walks::walked_cell;
use ob_base::{List, NoMemory};
use ob_tree::CellTree;
use std::alloc::Global;

/// The names to which a cell refers and which it doesn't bind, with their forms, each once, in the
/// order of first appearance (this project). The own name of a function cell isn't free in it.
///
/// # Errors
/// `NoMemory` where an allocation is refused.
pub fn free_names(alloc: Global, cell: &CellTree) -> Result<List<NameRef>, NoMemory>
    ensures { IfOk result (λ names. names ≡ map name_ref (spec.free_names cell.now)) }
{
    let walker = walked_cell(alloc, cell)?;
    let names = free_among(alloc, walker.mentions())?;
    let copies = names.copies(alloc)?;
    Ok(copies)
}

/// The free names among mentions.
pub fn free_among<'a>(alloc: Global, mentions: &[Mention<'a>]) -> Result<NameSet<'a>, NoMemory>
    ensures { IfOk result (λ names. names ≡ map name_ref (spec.free_in (map mention_of mentions.now))) }
{
    let mut names = NameSet::new(alloc);
    for mention in mentions {
        add_free(&mut names, mention)?;
    }
    Ok(names)
}

fn add_free<'a>(names: &mut NameSet<'a>, mention: &Mention<'a>) -> Result<(), NoMemory>
    ensures { OnOk result (names.new ≡ with_free names.old (mention_of mention.now)) }
{
    match mention.means {
        Meaning::Free => names.add(form_of(mention.form), mention.name),
        Meaning::Local(_) | Meaning::Captured(_) => Ok(()),
    }
}
