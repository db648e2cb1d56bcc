use crate::aggregate::SignedAggs;
use ms_base::atom_id::AtomId;
use ms_base::seq::Seq;

/// Numbers of atoms, in rising order and each once.
pub type AtomIds = Seq<AtomId>;

/// What a rule does where its body holds.
#[derive(Clone, Copy, Debug, PartialEq, Eq, PartialOrd, Ord)]
pub enum GroundKind {
    /// Its head holds too.
    Normal,
    /// Its head may hold too.
    Choice,
    /// Nothing may hold that makes its body true. It has no head.
    Constraint,
}

/// A rule over the atoms of the base. Its body holds in a set that has each atom of `pos` and none of `neg`, and in
/// which each signed aggregate holds.
#[derive(Debug, Drop, PartialEq, Eq, PartialOrd, Ord)]
pub struct GroundRule {
    pub kind: GroundKind,
    pub head: Option<AtomId>,
    pub pos: AtomIds,
    pub neg: AtomIds,
    pub aggs: SignedAggs,
}

/// Rules, each once.
pub type GroundRules = Seq<GroundRule>;

/// An atom whose truth is given from outside. Where its value is `None` it is free: each answer set has it or not.
#[derive(Clone, Copy, Debug, PartialEq, Eq)]
pub struct Input {
    pub atom: AtomId,
    pub value: Option<bool>,
}

/// Inputs, each atom once.
pub type Inputs = Seq<Input>;

/// The rules of a join, and its inputs.
#[derive(Debug, Drop)]
pub struct Rules {
    pub rules: GroundRules,
    pub inputs: Inputs,
}
