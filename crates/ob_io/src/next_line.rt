use ob_base::List;

/// What the next line of an input is.
#[derive(Drop)]
pub enum NextLine {
    /// The bytes before the first line feed, or the rest where none is left and the rest isn't empty.
    Line(List<u8>),
    /// No byte is left.
    End,
    /// A line has a byte past the line limit.
    LineTooLong,
    /// The input has a byte past the input limit, and all lines whose line feed stands before it
    /// were handed out.
    InputTooLong,
    /// A read failed.
    ReadFault,
    /// An allocation was refused.
    NoMemory,
}
