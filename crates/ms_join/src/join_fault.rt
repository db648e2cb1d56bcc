use ms_base::atom_id::AtomId;

/// Why a module can't be joined: the first that holds of these, with the least atoms in term order.
#[derive(Clone, Copy, Debug, PartialEq, Eq)]
pub enum JoinFault {
    /// The join would have more than 4,000,000 things: its atoms, and the bodies, tuples and
    /// aggregates of its rules, where equal ones are one.
    TooMany,
    /// A head of the module is an output already.
    Redefined { atom: AtomId },
    /// A head of the module and an old output are in one component.
    CrossLoop { new_head: AtomId, old: AtomId },
    /// A head depends through an aggregate on an atom of its own component.
    RecursiveAggregate { atom: AtomId },
    /// There was no memory to find out.
    OutOfMemory,
}
