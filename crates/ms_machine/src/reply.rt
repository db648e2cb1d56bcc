use ms_base::seq::Bytes;
pub use ms_lits::Ending;
pub use ms_solving::shown::Shown;

/// Why a command was refused. A refused command changes nothing. Atoms are given by their texts.
#[derive(Debug, Drop, PartialEq, Eq)]
pub enum Refusal {
    /// The line is no command.
    Command,
    /// The input ends inside an `@add`.
    Unfinished,
    /// The text isn't in the grammar, for the first time in this line.
    Syntax { line: u64 },
    /// A constant is defined a second time, for the first time in this line.
    Const { line: u64 },
    /// A core rule has an aggregate.
    Later,
    /// The grounding has more than 1,000,000 copies of rules, or an atom of more than 2,000 symbols.
    TooLarge,
    /// The join would have more than 4,000,000 things: atoms, bodies, tuples and aggregates.
    TooMany,
    /// A head of the module is an output already: the least such head.
    Redefined { atom: Bytes },
    /// A head of the module and an old output are in one component: the least such head, and the least output there.
    CrossLoop { new_head: Bytes, old: Bytes },
    /// A head depends through an aggregate on an atom of its own component: the least such head.
    RecursiveAggregate { atom: Bytes },
}

/// The reply to one command.
#[derive(Debug, Drop)]
pub enum Reply {
    /// The text was taken; it has so many statements.
    Added {
        count: u64,
    },
    /// The module was joined; it has so many new atoms and rules.
    Grounded {
        atoms: u64,
        rules: u64,
    },
    /// The input has the value.
    Assigned,
    /// The input is false for good.
    Released,
    /// The atom is no input.
    NoEffect,
    /// So many answer sets were found and listed.
    Solved {
        ending: Ending,
        count: u64,
        limit: u64,
        shown: Shown,
    },
    Refused(Refusal),
}
