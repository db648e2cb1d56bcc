use crate::ground_rule::AtomIds;
use ms_base::seq::Seq;
use ms_term::TermId;

/// Names of terms.
pub type TermIds = Seq<TermId>;

/// What an aggregate computes of the tuples whose conditions hold.
#[derive(Clone, Copy, Debug, PartialEq, Eq, PartialOrd, Ord, Hash)]
pub enum AggFn3 {
    /// Their number.
    Count,
    /// The sum of the first terms of those that begin with an integer.
    Sum,
}

/// How a value is compared with a bound.
#[derive(Clone, Copy, Debug, PartialEq, Eq, PartialOrd, Ord, Hash)]
pub enum Cmp3 {
    Eq,
    Ne,
    Lt,
    Le,
    Gt,
    Ge,
}

/// An element of an aggregate: a tuple of at least one term, and the condition under which it counts.
#[derive(Debug, Drop, PartialEq, Eq, PartialOrd, Ord, Hash)]
pub struct GroundElement {
    pub tuple: TermIds,
    /// The first term of the tuple, where that is an integer.
    pub weight: Option<i64>,
    pub pos: AtomIds,
    pub neg: AtomIds,
}

/// Elements, in rising order and each once.
pub type GroundElements = Seq<GroundElement>;

/// A bound on the value of an aggregate, which stands on the left of it.
#[derive(Clone, Copy, Debug, PartialEq, Eq, PartialOrd, Ord, Hash)]
pub struct GroundGuard {
    pub cmp: Cmp3,
    pub bound: TermId,
    /// The bound, where that is an integer. Any other bound is greater than every integer.
    pub limit: Option<i64>,
}

/// Guards: first the one that was written on the left, with its sign turned round, and then the other.
pub type GroundGuards = Seq<GroundGuard>;

/// An aggregate. It holds where its value meets each guard, and always where it has none.
#[derive(Debug, Drop, PartialEq, Eq, PartialOrd, Ord, Hash)]
pub struct GroundAgg {
    pub function: AggFn3,
    pub elements: GroundElements,
    pub guards: GroundGuards,
}

/// An aggregate in a body, negated or not.
#[derive(Debug, Drop, PartialEq, Eq, PartialOrd, Ord, Hash)]
pub struct SignedAgg {
    pub negated: bool,
    pub agg: GroundAgg,
}

/// Signed aggregates, in rising order and each once.
pub type SignedAggs = Seq<SignedAgg>;
