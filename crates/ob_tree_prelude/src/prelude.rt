ghost use Rattle.std.specs.Prelude.{◌≡◌, IfOk};
ghost use Rattle.ob_tree_prelude.specs.Trees.{tree_of};

use crate::trees;
use ob_base::NoMemory;
use ob_tree_types::Function;
use std::alloc::Global;

/// A builtin that is written in the language itself, in the order of their texts (after ECMA-262,
/// "Properties of the Array Prototype Object" and "Array.from"; the texts are this project's).
#[derive(Clone, Copy, Debug, PartialEq, Eq)]
pub enum Prelude {
    Map,
    Filter,
    ForEach,
    Some,
    Every,
    Reduce,
    From,
}

/// The function that the text of the builtin means.
///
/// # Errors
/// `NoMemory` where an allocation is refused.
pub fn prelude_tree(alloc: Global, which: Prelude) -> Result<Function, NoMemory>
    ensures { IfOk result (λ tree. tree ≡ tree_of which) }
{
    match which {
        Prelude::Map => trees::map_tree(alloc),
        Prelude::Filter => trees::filter_tree(alloc),
        Prelude::ForEach => trees::for_each_tree(alloc),
        Prelude::Some => trees::some_tree(alloc),
        Prelude::Every => trees::every_tree(alloc),
        Prelude::Reduce => trees::reduce_tree(alloc),
        Prelude::From => trees::from_tree(alloc),
    }
}
