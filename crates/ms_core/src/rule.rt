use crate::pattern::{Pattern, Patterns};
use ms_base::seq::Seq;
pub use ms_grammar::statement::{AggFn, Cmp};

/// A comparison of two terms.
#[derive(Debug, Drop)]
pub struct Test {
    pub left: Pattern,
    pub cmp: Cmp,
    pub right: Pattern,
}

pub type Tests = Seq<Test>;

/// All integers from `low` to `high`. The ends name only ranges before it.
#[derive(Debug, Drop)]
pub struct Range {
    pub low: Pattern,
    pub high: Pattern,
}

pub type Ranges = Seq<Range>;

/// A condition: atoms that are true, atoms that are false, comparisons that hold, and the ranges of which an
/// integer is chosen.
#[derive(Debug, Drop)]
pub struct Conds {
    pub pos: Patterns,
    pub neg: Patterns,
    pub tests: Tests,
    pub ranges: Ranges,
}

/// A tuple of an aggregate, with the condition under which it is there. The numbers of its ranges go on
/// after those of its rule.
#[derive(Debug, Drop)]
pub struct Element {
    pub tuple: Patterns,
    pub conds: Conds,
}

pub type Elements = Seq<Element>;

/// A bound on the right of an aggregate's value.
#[derive(Debug, Drop)]
pub struct Guard {
    pub cmp: Cmp,
    pub bound: Pattern,
}

pub type Guards = Seq<Guard>;

/// An aggregate of a rule's body. It holds where each guard holds of its value, and `negated` turns that round.
#[derive(Debug, Drop)]
pub struct Agg {
    pub negated: bool,
    pub function: AggFn,
    pub elements: Elements,
    pub guards: Guards,
}

pub type Aggs = Seq<Agg>;

/// What a core rule says of its head.
#[derive(Clone, Copy, Debug, PartialEq, Eq)]
pub enum RuleKind {
    /// The head is true where the body is.
    Normal,
    /// The head may be true where the body is.
    Choice,
    /// The body isn't true. There is no head.
    Constraint,
    /// The head is an input.
    External,
}

/// A rule without pools, in which each interval is a range. Its ranges are numbered from 0.
#[derive(Debug, Drop)]
pub struct CoreRule {
    pub kind: RuleKind,
    pub head: Option<Pattern>,
    pub conds: Conds,
    pub aggs: Aggs,
}

pub type CoreRules = Seq<CoreRule>;
