use std::io::{Error, ErrorKind};

/// How often one read or write is tried while signals interrupt it, before that counts as a fault.
pub(crate) const TRIES: u32 = 64;

pub(crate) fn is_interrupted(error: &Error) -> bool {
    matches!(error.kind(), ErrorKind::Interrupted)
}
