// What a reader knows of a term, beside the term itself.
use crate::term::{TermLists, TextTerm, TextTerms};
use crate::value::{Value, Values};

/// A term with its height and the number of choices that its pools have, counted up to 10,001.
#[derive(Debug, Drop)]
pub struct Part {
    pub term: TextTerm,
    pub height: u8,
    pub choices: u32,
}

/// Terms side by side, with the greatest of their heights, or 0, and the product of their choices,
/// counted up to 10,001. Of alternatives it is the sum.
#[derive(Debug, Drop)]
pub struct Row {
    pub terms: TextTerms,
    pub height: u8,
    pub choices: u32,
}

/// Lists of terms of which one is chosen, with the greatest of their heights, or 0, and the sum of their
/// choices, counted up to 10,001.
#[derive(Debug, Drop)]
pub struct Rows {
    pub lists: TermLists,
    pub height: u8,
    pub choices: u32,
}

/// A value with its height.
#[derive(Debug, Drop)]
pub struct ValuePart {
    pub value: Value,
    pub height: u8,
}

/// Values side by side, with the greatest of their heights, or 0.
#[derive(Debug, Drop)]
pub struct ValueRow {
    pub values: Values,
    pub height: u8,
}

/// A part of a statement with the number of choices that pools have in it outside of elements, and the
/// number of copies of its elements that have a pool, both counted up to 10,001.
#[derive(Debug, Drop)]
pub struct Counted<T> {
    pub value: T,
    pub choices: u32,
    pub elements: u32,
}
