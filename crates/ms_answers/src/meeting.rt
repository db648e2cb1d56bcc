// Sets and the assumptions on their atoms.
ghost use Rattle.std.specs.Prelude.{◌≡◌, ◌↔◌, IsTrue};
ghost use Rattle.ms_join.specs.AnswerSets.{set_of};
ghost use Rattle.ms_join.specs.Assumptions.{MeetsEach};

use ms_join::assumption::AtomLit;
use ms_rules::{AtomId, AtomSet};

fn has(set: &[AtomId], atom: AtomId) -> bool
    ensures { result ≡ set_of set.now atom }
{
    set.iter().any(|member| member.0 == atom.0)
}

/// Whether the set has or lacks each atom as it is assumed.
pub(crate) fn meets_each(set: &AtomSet, assume: &[AtomLit]) -> bool
    ensures { IsTrue result ↔ MeetsEach set.now assume.now }
{
    let members = set.as_slice();
    assume.iter().all(|lit| has(members, lit.atom) == lit.truth)
}
