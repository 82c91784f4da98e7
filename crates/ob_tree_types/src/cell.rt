use crate::Function;
use ob_base::{List, Text, Units};

/// A cell (this project, after the Observable Parser). The function of a bare, named, view or
/// mutable cell has no name and no parameters; its body is the cell's, and `generator` tells
/// whether that is a generator body.
#[derive(Drop)]
pub enum CellTree {
    Empty,
    Import(ImportTree),
    /// A named function that is a cell as a whole.
    Function(Function),
    Bare(Function),
    Named(Text, Function),
    /// `viewof` and a name.
    View(Text, Function),
    /// `mutable` and a name.
    Mutable(Text, Function),
}

/// An import cell (this project, after the Observable Parser): what is imported, what is put in
/// place of names of the other notebook by `with`, and the id of that notebook.
#[derive(Drop)]
pub struct ImportTree {
    pub specs: List<ImportSpec>,
    pub with: Option<List<ImportSpec>>,
    pub from: Units,
}

/// One name of an import cell: the name there, and the name here where `as` gives one.
#[derive(Drop)]
pub struct ImportSpec {
    pub form: SpecForm,
    pub source: Text,
    pub alias: Option<Text>,
}

/// What stands before a name of an import cell: nothing, `viewof` or `mutable`.
#[derive(Clone, Copy, Debug, PartialEq, Eq)]
pub enum SpecForm {
    Plain,
    Viewof,
    Mutable,
}
