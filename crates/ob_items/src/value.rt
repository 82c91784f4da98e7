/// The key of a region.
#[derive(Clone, Copy, Debug, PartialEq, Eq, Hash)]
pub struct RegionKey(pub usize);

/// A function of a chunk of code: its place in text order, where 0 is the chunk itself.
#[derive(Clone, Copy, Debug, PartialEq, Eq, Hash)]
pub struct CodeKey {
    pub code: usize,
    pub function: usize,
}

/// An item of a region, by its place in the order of allocation.
#[derive(Clone, Copy, Debug, PartialEq, Eq, Hash)]
pub struct Ref {
    pub region: RegionKey,
    pub item: usize,
}

/// A value of the language (ECMA-262, "ECMAScript Language Types", in this project's profile).
#[derive(Clone, Copy, Debug, PartialEq, Eq)]
pub enum Value {
    Undefined,
    Null,
    Bool(bool),
    /// A whole number from -(2^53-1) to 2^53-1.
    Int(i64),
    /// A builtin or a host function, by its number.
    Builtin(u16),
    /// The holder of a mutable, by its number among the inputs.
    Holder(u32),
    /// A text, an array, an object, a function, a generator object, an error or an invalidation object.
    Ref(Ref),
}

// So an array keeps each of its elements in 24 bytes.
const _: () = prove!(size_of::<Value>() == 24);

/// The kinds of errors (ECMA-262, "Error Objects").
#[derive(Clone, Copy, Debug, PartialEq, Eq)]
pub enum ErrorKind {
    Error,
    TypeError,
    RangeError,
    ReferenceError,
}

/// The kinds of items.
#[derive(Clone, Copy, Debug, PartialEq, Eq)]
pub enum Kind {
    Text,
    Array,
    Object,
    Box,
    Closure,
    Generator,
    Error(ErrorKind),
    Invalidation,
}
