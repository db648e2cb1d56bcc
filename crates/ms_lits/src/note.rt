use crate::lit::{Lits, Numbers};
use ms_base::seq::{Bytes, Seq};

/// How a solve ended.
#[derive(Clone, Copy, Debug, PartialEq, Eq)]
pub enum Ending {
    /// Each answer set was found, and there are fewer than were asked for.
    Complete,
    /// As many were found as were asked for.
    StillOpen,
    /// The limit of learned nogoods was reached.
    Cut,
}

/// A line of the log. Things are numbered from 0 in the order of their declaration.
#[derive(Debug, Drop, PartialEq, Eq)]
pub enum Note {
    /// Declares an atom, by its text.
    Atom(Bytes),
    /// Declares a body, by its literals over atoms and aggregates.
    Body(Lits),
    /// Declares a tuple, by the text of its terms and its conditions.
    Tuple(Bytes, Numbers),
    /// Declares an aggregate, by its function with its guards and its tuples.
    Aggregate(Bytes, Numbers),
    /// A solve begins: whether an atom outside the base is assumed true, and the literals that inputs
    /// and assumptions demand.
    Start(bool, Lits),
    /// A theory gave this nogood.
    Theory(Lits),
    /// This nogood was learned and is kept.
    Kept(Lits),
    /// This nogood was learned for the present solve.
    Temporary(Lits),
    /// An answer set was found, with these true atoms.
    Answer(Numbers),
    /// The solve ends, with the last line of its reply.
    Finish(Bytes),
}

/// Lines of the log, in their order.
pub type Notes = Seq<Note>;
