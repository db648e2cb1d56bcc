use ms_base::seq::Bytes;
use ms_tree::Op;
use sqlite_items::{Boxed, Items};

/// A term of a core rule: it has a value under each choice of integers for the ranges of its rule.
#[derive(Debug, Drop)]
pub enum Pattern {
    /// The integer that is chosen for the range of this number.
    Range(u32),
    Number(i64),
    /// The bytes of a string.
    Text(Bytes),
    /// A name with its arguments. A tuple has the empty name.
    Function(Bytes, Patterns),
    Neg(Boxed<Pattern>),
    Abs(Boxed<Pattern>),
    Binary(Op, Boxed<Pattern>, Boxed<Pattern>),
}

pub type Patterns = Items<Pattern>;
