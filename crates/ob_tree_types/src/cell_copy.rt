ghost use Rattle.std.specs.Prelude.{◌≡◌, IfOk};

use crate::{CellTree, ImportSpec, ImportTree};
use ob_base::{List, NoMemory};
use std::alloc::Global;

impl CellTree {
    /// The same cell.
    ///
    /// # Errors
    /// `NoMemory` where an allocation is refused.
    pub fn copy(&self, alloc: Global) -> Result<CellTree, NoMemory>
        ensures { IfOk result (λ copy. copy ≡ self.now) }
    {
        match self {
            CellTree::Empty => Ok(CellTree::Empty),
            CellTree::Import(import) => {
                let import = import.copy(alloc)?;
                Ok(CellTree::Import(import))
            }
            CellTree::Function(function) => {
                let function = function.copy(alloc)?;
                Ok(CellTree::Function(function))
            }
            CellTree::Bare(body) => {
                let body = body.copy(alloc)?;
                Ok(CellTree::Bare(body))
            }
            CellTree::Named(name, body) => {
                let name = name.copy(alloc)?;
                let body = body.copy(alloc)?;
                Ok(CellTree::Named(name, body))
            }
            CellTree::View(name, body) => {
                let name = name.copy(alloc)?;
                let body = body.copy(alloc)?;
                Ok(CellTree::View(name, body))
            }
            CellTree::Mutable(name, body) => {
                let name = name.copy(alloc)?;
                let body = body.copy(alloc)?;
                Ok(CellTree::Mutable(name, body))
            }
        }
    }
}

impl ImportTree {
    /// The same import.
    ///
    /// # Errors
    /// `NoMemory` where an allocation is refused.
    pub fn copy(&self, alloc: Global) -> Result<ImportTree, NoMemory>
        ensures { IfOk result (λ copy. copy ≡ self.now) }
    {
        let specs = copy_specs(alloc, self.specs.as_slice())?;
        let from = self.from.copy(alloc)?;
        match &self.with {
            None => Ok(ImportTree {
                specs,
                with: None,
                from,
            }),
            Some(with) => {
                let with = copy_specs(alloc, with.as_slice())?;
                Ok(ImportTree {
                    specs,
                    with: Some(with),
                    from,
                })
            }
        }
    }
}

impl ImportSpec {
    /// The same name of an import.
    ///
    /// # Errors
    /// `NoMemory` where an allocation is refused.
    pub fn copy(&self, alloc: Global) -> Result<ImportSpec, NoMemory>
        ensures { IfOk result (λ copy. copy ≡ self.now) }
    {
        let source = self.source.copy(alloc)?;
        match &self.alias {
            None => Ok(ImportSpec {
                form: self.form,
                source,
                alias: None,
            }),
            Some(alias) => {
                let alias = alias.copy(alloc)?;
                Ok(ImportSpec {
                    form: self.form,
                    source,
                    alias: Some(alias),
                })
            }
        }
    }
}

fn copy_specs(alloc: Global, specs: &[ImportSpec]) -> Result<List<ImportSpec>, NoMemory>
    ensures { IfOk result (λ copy. copy ≡ specs.now) }
{
    let mut copies = List::new(alloc);
    for spec in specs {
        copies.push(spec.copy(alloc)?)?;
    }
    Ok(copies)
}
