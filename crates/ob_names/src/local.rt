ghost use Rattle.std.specs.Prelude.{◌≡◌, map, bytes_eq, IfOk};
ghost use Rattle.ob_tree.specs.Names as spec;
ghost use Rattle.ob_names.specs.Kept.{bound_of};

use crate::text_set::TextSet;
use crate::walker::Bound;
use crate::walks::walked_cell;
use ob_base::{List, NoMemory, Text};
use ob_tree::CellTree;
use std::alloc::Global;

/// Every name that is bound anywhere in a cell, each once, in the order in which their scopes are
/// entered: parameters, names of `let`, `const`, `catch` and `for`, of function declarations and of
/// function expressions, and the own name of a function cell (this project).
///
/// # Errors
/// `NoMemory` where an allocation is refused.
pub fn local_names(alloc: Global, cell: &CellTree) -> Result<List<Text>, NoMemory>
    ensures { IfOk result (λ names. names ≡ spec.local_names cell.now) }
{
    let walker = walked_cell(alloc, cell)?;
    let names = bound_names(alloc, walker.bound())?;
    let copies = names.copies(alloc)?;
    Ok(copies)
}

/// The names of bindings, each once.
fn bound_names<'a>(alloc: Global, bound: &[Bound<'a>]) -> Result<TextSet<'a>, NoMemory>
    ensures { IfOk result (λ names. names ≡ spec.each_once bytes_eq (map spec.name_of (map bound_of bound.now))) }
{
    let mut names = TextSet::new(alloc);
    for binding in bound {
        names.add(binding.name)?;
    }
    Ok(names)
}
