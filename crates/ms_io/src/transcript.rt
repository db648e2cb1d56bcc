// What calls of a source or a sink gave, as one text, for the tests.
use crate::failed::Failed;
use crate::sink::Sink;
use crate::source::Source;
use std::alloc::{AllocError, Global};

/// The bytes that each of so many calls of `take` gave, or `!` where it failed, each with a `|`.
pub(crate) fn takes<S: Source>(
    alloc: Global,
    source: &mut S,
    room: usize,
    calls: usize,
) -> Result<Vec<u8>, AllocError> {
    let mut seen = Vec::new(alloc);
    let mut space = vec![in alloc; 0u8; room]?;
    let buffer = space.as_mut_slice();
    for _ in 0..calls {
        match source.take(buffer) {
            Ok(count) => seen.extend_from_slice(&buffer[..count])?,
            Err(Failed) => seen.push(b'!')?,
        }
        seen.push(b'|')?;
    }
    Ok(seen)
}

/// A `.` for each piece that the sink took, and a `!` for each that it refused.
pub(crate) fn puts<S: Sink>(
    alloc: Global,
    sink: &mut S,
    pieces: &[&str],
) -> Result<Vec<u8>, AllocError> {
    let mut seen = Vec::new(alloc);
    for piece in pieces {
        let mark = match sink.put(piece.as_bytes()) {
            Ok(()) => b'.',
            Err(Failed) => b'!',
        };
        seen.push(mark)?;
    }
    Ok(seen)
}
