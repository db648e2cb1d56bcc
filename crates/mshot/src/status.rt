/// How a call ended.
#[derive(Clone, Copy, Debug, PartialEq, Eq)]
pub enum Status {
    /// The input was read to its end, all replies were written, and none of them is a refusal.
    Done,
    /// The same, and a reply is a refusal.
    SomeRefused,
    /// The words have none of the shapes. Nothing was read or written.
    Usage,
    /// The source failed.
    ReadFault,
    /// The sink of the replies failed.
    WriteFault,
    /// The sink of the log failed.
    LogFault,
    /// The input has more than 2^30 bytes.
    TooLong,
    /// There was no memory.
    NoMemory,
}
