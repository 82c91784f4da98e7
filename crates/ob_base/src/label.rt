/// Which of a cell's variables one is.
#[derive(Clone, Copy, Debug, PartialEq, Eq, Hash)]
pub enum Part {
    Main,
    View,
    Shown,
    Initial,
    Holder,
}

/// The number that stands for the path of an instance, for good.
#[derive(Clone, Copy, Debug, PartialEq, Eq, Hash)]
pub struct PathId(pub u64);

/// A variable: the instance, the cell's serial and the part.
#[derive(Clone, Copy, Debug, PartialEq, Eq, Hash)]
pub struct Label {
    pub path: PathId,
    pub cell: u64,
    pub part: Part,
}
