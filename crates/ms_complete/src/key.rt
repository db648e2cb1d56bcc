use ms_base::atom_id::AtomId;
use ms_join::ground_rule::{AtomIds, GroundKind};

/// What a thing is made of, by which its number is found.
#[derive(Drop, PartialEq, Eq, Hash)]
pub(crate) enum ThingKey {
    Atom(AtomId),
    /// The positive and the negated atoms of a body.
    Body(AtomIds, AtomIds),
}

/// A rule by the numbers of its head and its body.
#[derive(Clone, Copy)]
pub(crate) struct NumberedRule {
    pub kind: GroundKind,
    pub head: Option<u32>,
    pub body: u32,
}

/// The body of a rule with this head.
#[derive(Clone, Copy)]
pub(crate) struct Support {
    pub head: u32,
    pub body: u32,
}
