/// A read or a write failed. The object that failed counted the fault.
#[derive(Clone, Copy, Debug, PartialEq, Eq)]
pub struct Failed;
