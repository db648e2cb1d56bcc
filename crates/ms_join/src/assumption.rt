use ms_base::atom_id::AtomId;
use ms_base::seq::Seq;

/// An atom that is taken for true or false.
#[derive(Clone, Copy, Debug, PartialEq, Eq, PartialOrd, Ord, Hash)]
pub struct AtomLit {
    pub atom: AtomId,
    pub truth: bool,
}

/// Assumptions on atoms.
pub type AtomLits = Seq<AtomLit>;

/// What a solve is asked for.
#[derive(Debug, Drop)]
pub struct AtomAsk {
    /// How many answer sets, at least 1.
    pub count: u64,
    /// After how many conflicts it gives up.
    pub limit: u64,
    /// The values of the inputs that aren't free, and the assumptions on atoms of the base, each once.
    pub assume: AtomLits,
    /// Whether an atom outside the base is assumed true.
    pub impossible: bool,
}
