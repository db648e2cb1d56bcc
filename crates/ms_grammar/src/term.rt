use ms_base::seq::Bytes;
use ms_tree::Op;
use sqlite_items::{Boxed, Items};

/// A term of a text, before parameters, pools and intervals are replaced.
#[derive(Debug, Drop)]
pub enum TextTerm {
    /// A number. The least one stands with its `-`.
    Number(i64),
    /// The bytes of a string.
    Text(Bytes),
    /// A name, with a list of terms for each alternative of its arguments, at least one. A constant has
    /// one empty list, and a tuple has the empty name.
    Function(Bytes, TermLists),
    /// The alternatives of a parenthesis, at least two.
    Pool(TextTerms),
    /// All integers from the first to the second.
    Interval(Boxed<TextTerm>, Boxed<TextTerm>),
    Neg(Boxed<TextTerm>),
    Abs(Boxed<TextTerm>),
    Binary(Op, Boxed<TextTerm>, Boxed<TextTerm>),
}

pub type TextTerms = Items<TextTerm>;

pub type TermLists = Items<TextTerms>;
