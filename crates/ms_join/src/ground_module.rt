pub use crate::aggregate::TermIds;
use crate::ground_rule::{AtomIds, GroundRules};

/// What a grounding adds to a base. The new atoms have the numbers from `first_new` on, `fresh` of them, and
/// `names` has their terms, in term order.
#[derive(Debug, Drop)]
pub struct GroundModule {
    pub first_new: u32,
    pub fresh: u32,
    pub names: TermIds,
    /// In rising order and each once.
    pub rules: GroundRules,
    /// The declared externals.
    pub externals: AtomIds,
    /// The outputs: also the heads of rules that were left out.
    pub heads: AtomIds,
}
