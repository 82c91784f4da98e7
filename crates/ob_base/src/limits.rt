/// The most bytes of a line, its line feed aside.
pub const MAX_LINE_BYTES: usize = 1_048_576;

/// The most bytes of an input.
pub const MAX_INPUT_BYTES: u64 = 67_108_864;

/// The most bytes of a cell's text.
pub const MAX_CELL_TEXT_BYTES: usize = 65_536;

/// The greatest depth of a cell's tree.
pub const MAX_TREE_DEPTH: u32 = 200;

/// The most brackets of a cell's text that are open at one place.
pub const MAX_OPEN_BRACKETS: u32 = 500;

/// The most instances of notebooks.
pub const MAX_INSTANCES: u32 = 256;

/// The most variables with import cells, in all instances together.
pub const MAX_VARIABLES: u32 = 1_024;

/// The most steps of a segment of a run, and of all hooks of an invalidation together.
pub const MAX_SEGMENT_STEPS: u64 = 100_000;

/// The most elements of a region.
pub const MAX_REGION_ELEMENTS: u64 = 50_000;

/// The greatest depth of calls.
pub const MAX_CALL_DEPTH: u32 = 200;

/// The most hooks of a run.
pub const MAX_HOOKS: u32 = 1_000;

/// The most UTF-16 units of a text that a cell makes.
pub const MAX_TEXT_UNITS: usize = 65_536;

/// The greatest depth to which arrays and objects of plain data stand in one another.
pub const MAX_ARRAY_DEPTH: u32 = 100;

/// The greatest integer, 2^53-1 (ECMA-262, "Number.MAX_SAFE_INTEGER").
pub const MAX_INTEGER: i64 = 9_007_199_254_740_991;

/// What is left of a number of steps.
#[derive(Debug, Drop)]
pub struct Budget {
    pub left: u64,
}

/// A meter that refused an action.
#[derive(Clone, Copy, Debug, PartialEq, Eq)]
pub enum Limit {
    Steps,
    Elements,
    Calls,
}
