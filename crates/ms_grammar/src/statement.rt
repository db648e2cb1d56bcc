use crate::term::{TextTerm, TextTerms};
use crate::value::Value;
use ms_base::seq::{Bytes, Seq};

/// A comparison of two terms.
#[derive(Clone, Copy, Debug, PartialEq, Eq)]
pub enum Cmp {
    /// `=` or `==`
    Eq,
    /// `!=` or `<>`
    Ne,
    /// `<`
    Lt,
    /// `<=`
    Le,
    /// `>`
    Gt,
    /// `>=`
    Ge,
}

/// What an aggregate computes of its tuples.
#[derive(Clone, Copy, Debug, PartialEq, Eq)]
pub enum AggFn {
    /// `#count`
    Count,
    /// `#sum`
    Sum,
}

/// A literal of a body or a condition.
#[derive(Debug, Drop)]
pub enum TextLit {
    Positive(TextTerm),
    Negated(TextTerm),
    Test {
        left: TextTerm,
        cmp: Cmp,
        right: TextTerm,
    },
}

pub type TextLits = Seq<TextLit>;

/// A bound of a set or an aggregate, with its comparison as it is written, and `Le` where none is.
#[derive(Debug, Drop)]
pub struct TextGuard {
    pub cmp: Cmp,
    pub bound: TextTerm,
}

/// An atom of a set, with the conditions under which it is there.
#[derive(Debug, Drop)]
pub struct SetElement {
    pub atom: TextTerm,
    pub conds: TextLits,
}

pub type SetElements = Seq<SetElement>;

/// A set of atoms: a choice in a head, and a count of its true atoms in a body.
#[derive(Debug, Drop)]
pub struct TextSet {
    pub left: Option<TextGuard>,
    pub elements: SetElements,
    pub right: Option<TextGuard>,
}

/// A tuple of an aggregate, with the conditions under which it is there.
#[derive(Debug, Drop)]
pub struct AggElement {
    pub tuple: TextTerms,
    pub conds: TextLits,
}

pub type AggElements = Seq<AggElement>;

/// A function over tuples, with its guards.
#[derive(Debug, Drop)]
pub struct TextAgg {
    pub function: AggFn,
    pub left: Option<TextGuard>,
    pub elements: AggElements,
    pub right: Option<TextGuard>,
}

/// The head of a rule.
#[derive(Debug, Drop)]
pub enum Head {
    /// A constraint has none.
    Empty,
    Atom(TextTerm),
    Set(TextSet),
}

/// A part of a rule's body.
#[derive(Debug, Drop)]
pub enum BodyLit {
    Lit(TextLit),
    Set { negated: bool, set: TextSet },
    Agg { negated: bool, agg: TextAgg },
}

pub type BodyLits = Seq<BodyLit>;

pub type Names = Seq<Bytes>;

/// What a statement says.
#[derive(Debug, Drop)]
pub enum Form {
    Rule { head: Head, body: BodyLits },
    /// `#program name(params).`
    Program { name: Bytes, params: Names },
    /// `#external atom.`
    External { atom: TextTerm },
    /// `#const name = value.`
    Const { name: Bytes, value: Value },
    /// `#show name/arity.`
    Show { name: Bytes, arity: u64 },
    /// `#show.`
    ShowNone,
    /// `#include <incmode>.`
    IncludeIncmode,
}

/// A statement of a text, with the line of its first token.
#[derive(Debug, Drop)]
pub struct Statement {
    pub line: u64,
    pub form: Form,
}

pub type Statements = Seq<Statement>;
