// The sets of atoms of a base, one after another.
ghost use Rattle.std.specs.Prelude.{◌≡◌, ◌↔◌, ◌+◌, ◌-◌, IfOk, IfSome, IsTrue, length, slice_get};
ghost use Rattle.ms_join.specs.AnswerSets.{IsAtomSet};
ghost use Rattle.ms_answers.specs.Subsets.{place_of, tried_before};

use ms_base::seq::Seq;
use ms_rules::{AtomId, AtomSet, OutOfMemory};

/// Whether the set ends with the atom.
fn ends_with(members: &[AtomId], atom: AtomId) -> bool
    ensures { IsTrue result ↔ (slice_get members.now (length members.now - 1) ≡ Some atom) }
{
    members.last().copied() == Some(atom)
}

/// The set after this one, or none after the set of all atoms. The first is the empty set. They come as
/// binary numbers do, whose last digit says whether the last atom is in the set.
pub(crate) fn next_set(set: AtomSet, atoms: u32) -> Result<Option<AtomSet>, OutOfMemory>
    requires { IsAtomSet atoms set }
    ensures within { IfOk result (λ next. IfSome next (IsAtomSet atoms)) }
    ensures next { IfOk result (λ next. tried_before atoms next ≡ place_of atoms set + 1) }
{
    let mut members = set.into_vec();
    for number in (0..atoms).rev() {
        let atom = AtomId(number);
        if !ends_with(members.as_slice(), atom) {
            members.push(atom)?;
            return Ok(Some(Seq::from_vec(members)));
        }
        members.pop();
    }
    Ok(None)
}
