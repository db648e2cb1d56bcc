use ms_base::seq::{Bytes, Seq};
pub use ms_base::truth::Truth;
use ms_grammar::value::{Value, Values};

/// A part of a program, with a value for each of its parameters.
#[derive(Debug, Drop)]
pub struct Call {
    pub name: Bytes,
    pub args: Values,
}

pub type Calls = Seq<Call>;

/// An atom that is taken for true or false in one solve.
#[derive(Debug, Drop)]
pub struct Assumption {
    pub atom: Value,
    pub truth: bool,
}

pub type Assumptions = Seq<Assumption>;

/// What a session takes one step for.
#[derive(Debug, Drop)]
pub enum Command {
    /// `@add`, with the text up to `@end`.
    Add {
        text: Bytes,
    },
    /// `@ground`, with at least one call.
    Ground {
        calls: Calls,
    },
    /// `@assign`
    Assign {
        atom: Value,
        truth: Truth,
    },
    /// `@release`
    Release {
        atom: Value,
    },
    /// `@solve`, with how many answers are asked for and how many conflicts are allowed.
    Solve {
        count: u64,
        limit: u64,
        assume: Assumptions,
    },
}
