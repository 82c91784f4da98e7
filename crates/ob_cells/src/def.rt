ghost use Rattle.std.specs.Prelude.{◌≡◌, IfOk};

use ob_base::{List, NoMemory, Part, Units};
use ob_names::NameRef;
use std::alloc::Global;

/// What gives the outcome of a variable (this project).
#[derive(Clone, Copy, Debug, PartialEq, Eq)]
pub enum Body {
    /// The cell's text.
    Tree,
    /// What was given for the view, else the view's property `value`.
    ShowView,
    /// The current value of the mutable.
    ShowMutable,
    /// The place of the mutable's current value.
    Hold,
    /// A text that doesn't read: a failure.
    Unreadable,
}

/// A variable of a cell: its part, the name that it defines, the names that it reads, each once in
/// order of first appearance, and what gives its outcome.
#[derive(Debug, Drop)]
pub struct VarDef {
    pub part: Part,
    pub name: Option<NameRef>,
    pub inputs: List<NameRef>,
    pub body: Body,
}

/// A name of the other notebook and the name here. In a `with` clause: a name here, and the name
/// there in whose place it is put.
#[derive(Debug, Drop)]
pub struct Pair {
    pub source: NameRef,
    pub alias: NameRef,
}

/// What an import cell says: the pairs of its names, those of its `with` clause where it has one,
/// and the id of the other notebook.
#[derive(Debug, Drop)]
pub struct ImportClause {
    pub pairs: List<Pair>,
    pub with: Option<List<Pair>>,
    pub from: Units,
}

impl VarDef {
    /// The same variable.
    ///
    /// # Errors
    /// `NoMemory` where an allocation is refused.
    pub fn copy(&self, alloc: Global) -> Result<VarDef, NoMemory>
        ensures { IfOk result (λ copy. copy ≡ self.now) }
    {
        let inputs = copy_names(alloc, self.inputs.as_slice())?;
        let name = copy_name(alloc, &self.name)?;
        Ok(VarDef {
            part: self.part,
            name,
            inputs,
            body: self.body,
        })
    }
}

impl Pair {
    /// The same pair.
    ///
    /// # Errors
    /// `NoMemory` where an allocation is refused.
    pub fn copy(&self, alloc: Global) -> Result<Pair, NoMemory>
        ensures { IfOk result (λ copy. copy ≡ self.now) }
    {
        let source = self.source.copy(alloc)?;
        let alias = self.alias.copy(alloc)?;
        Ok(Pair { source, alias })
    }
}

impl ImportClause {
    /// The same clause.
    ///
    /// # Errors
    /// `NoMemory` where an allocation is refused.
    pub fn copy(&self, alloc: Global) -> Result<ImportClause, NoMemory>
        ensures { IfOk result (λ copy. copy ≡ self.now) }
    {
        let pairs = copy_pairs(alloc, self.pairs.as_slice())?;
        let from = self.from.copy(alloc)?;
        match &self.with {
            None => Ok(ImportClause {
                pairs,
                with: None,
                from,
            }),
            Some(with) => {
                let with = copy_pairs(alloc, with.as_slice())?;
                Ok(ImportClause {
                    pairs,
                    with: Some(with),
                    from,
                })
            }
        }
    }
}

fn copy_name(alloc: Global, name: &Option<NameRef>) -> Result<Option<NameRef>, NoMemory>
    ensures { IfOk result (λ copy. copy ≡ name.now) }
{
    match name {
        None => Ok(None),
        Some(name) => {
            let name = name.copy(alloc)?;
            Ok(Some(name))
        }
    }
}

fn copy_names(alloc: Global, names: &[NameRef]) -> Result<List<NameRef>, NoMemory>
    ensures { IfOk result (λ copy. copy ≡ names.now) }
{
    let mut copies = List::new(alloc);
    for name in names {
        copies.push(name.copy(alloc)?)?;
    }
    Ok(copies)
}

fn copy_pairs(alloc: Global, pairs: &[Pair]) -> Result<List<Pair>, NoMemory>
    ensures { IfOk result (λ copy. copy ≡ pairs.now) }
{
    let mut copies = List::new(alloc);
    for pair in pairs {
        copies.push(pair.copy(alloc)?)?;
    }
    Ok(copies)
}
