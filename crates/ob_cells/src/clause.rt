ghost use Rattle.std.specs.Prelude.{◌≡◌, fold, IfOk, OnOk};
ghost use Rattle.ob_tree.specs.Names.{with_one};
ghost use Rattle.ob_cells.specs.Imports as spec;
ghost use Rattle.ob_cells.specs.Imports.{same_pair, pairs_of, all_pairs, alias_of};

use crate::pair_set::PairSet;
use crate::{ImportClause, Pair};
use ob_base::{List, NoMemory};
use ob_names::NameForm;
use ob_tree::{CellTree, ImportSpec, ImportTree, SpecForm};
use std::alloc::Global;

/// What an import cell says; none exactly for a cell of another form.
///
/// # Errors
/// `NoMemory` where an allocation is refused.
#[tactic(auto, unfolding(crate::specs::Imports::import_of))]
pub fn import_of(alloc: Global, cell: &CellTree) -> Result<Option<ImportClause>, NoMemory>
    ensures { IfOk result (λ clause. clause ≡ spec.import_of cell.now) }
{
    match cell {
        CellTree::Import(import) => {
            let clause = clause_of(alloc, import)?;
            Ok(Some(clause))
        }
        CellTree::Empty
        | CellTree::Function(_)
        | CellTree::Bare(_)
        | CellTree::Named(_, _)
        | CellTree::View(_, _)
        | CellTree::Mutable(_, _) => Ok(None),
    }
}

fn clause_of(alloc: Global, import: &ImportTree) -> Result<ImportClause, NoMemory>
    ensures { IfOk result (λ clause. clause ≡ spec.clause_of import.now) }
{
    let pairs = pairs_among(alloc, import.specs.as_slice())?;
    let from = import.from.copy(alloc)?;
    match &import.with {
        None => Ok(ImportClause {
            pairs,
            with: None,
            from,
        }),
        Some(with) => {
            let with = pairs_among(alloc, with.as_slice())?;
            Ok(ImportClause {
                pairs,
                with: Some(with),
                from,
            })
        }
    }
}

/// The pairs of these names, each once, in the order of first appearance.
fn pairs_among(alloc: Global, specs: &[ImportSpec]) -> Result<List<Pair>, NoMemory>
    ensures { IfOk result (λ pairs. pairs ≡ all_pairs specs.now) }
{
    let mut pairs = PairSet::new(alloc);
    for spec in specs {
        add_pairs(&mut pairs, spec)?;
    }
    pairs.copies(alloc)
}

fn alias_of(spec: &ImportSpec) -> &str
    ensures { result.now ≡ alias_of spec.now }
{
    match &spec.alias {
        None => spec.source.as_str(),
        Some(alias) => alias.as_str(),
    }
}

/// Adds the pairs of one name.
fn add_pairs<'a>(pairs: &mut PairSet<'a>, spec: &'a ImportSpec) -> Result<(), NoMemory>
    ensures { OnOk result (pairs.new ≡ fold (with_one same_pair) pairs.old (pairs_of spec.now)) }
{
    let source = spec.source.as_str();
    let alias = alias_of(spec);
    match spec.form {
        SpecForm::Plain => pairs.add(NameForm::Plain, source, alias),
        SpecForm::Viewof => {
            pairs.add(NameForm::Viewof, source, alias)?;
            pairs.add(NameForm::Plain, source, alias)
        }
        SpecForm::Mutable => {
            pairs.add(NameForm::Mutable, source, alias)?;
            pairs.add(NameForm::Initial, source, alias)?;
            pairs.add(NameForm::Plain, source, alias)
        }
    }
}
