use ms_base::seq::Seq;
use ms_core::rule::RuleKind;
use ms_join::ground_module::TermIds;
use ms_term::TermId;

/// What a copy of a core rule says, by the names of its terms in a table. A constraint has no head, and each other
/// kind has one.
#[derive(Debug, Drop)]
pub struct Instance {
    pub kind: RuleKind,
    pub head: Option<TermId>,
    pub pos: TermIds,
    pub neg: TermIds,
}

pub type Instances = Seq<Instance>;
