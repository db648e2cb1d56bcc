// A term as its parts.
use crate::term_id::TermId;

/// The parts of a term, lent. The size is the number of its symbols, held at the greatest u64.
#[derive(Clone, Copy)]
pub(crate) enum Shape<'a> {
    Number(i64),
    Text(&'a [u8]),
    Function {
        name: &'a [u8],
        arguments: &'a [TermId],
        size: u64,
    },
}
