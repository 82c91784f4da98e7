/// How a session ended (this project). The statuses of the program are 0 to 7, in this order.
#[derive(Clone, Copy, Debug, PartialEq, Eq)]
pub enum Exit {
    /// The input was read to its end and all was written.
    Done,
    /// The words ask for nothing that there is; the usage line was written.
    Usage,
    /// The first line was refused.
    BadBundle,
    /// A read failed.
    ReadFault,
    /// A write failed.
    WriteFault,
    /// An allocation was refused.
    NoMemory,
    /// A line has too many bytes.
    LineTooLong,
    /// The input has too many bytes.
    InputTooLong,
}
