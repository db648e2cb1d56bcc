use ms_lits::{Answers, Ending, Lits, Notes};

/// What a search is asked for.
#[derive(Debug, Drop)]
pub struct Ask {
    /// The number of variables.
    pub vars: u32,
    /// How many answers are asked for, at least one.
    pub count: u64,
    /// How many nogoods may be learned, beside those of the answers.
    pub limit: u64,
    /// The literals that inputs and assumptions demand.
    pub assume: Lits,
    /// Whether something is demanded that no answer has.
    pub impossible: bool,
}

/// What a search found.
#[derive(Debug, Drop)]
pub struct Run {
    pub ending: Ending,
    /// Each answer, as its true atoms in rising order.
    pub answers: Answers,
    /// The lines of the log, from the first one on, without the one that ends it.
    pub notes: Notes,
}
