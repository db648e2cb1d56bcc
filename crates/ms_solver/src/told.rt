// Answers as sets of atoms.
ghost use Rattle.std.specs.Prelude.{◌≡◌, ◌<◌, ◌^◌, ◌↔◌, All, IfOk, IsTrue, Some, length, map, slice_get};
ghost use Rattle.ms_solver.specs.Numbered.{IsPickedFrom, atoms_of};

use ms_base::memory::OutOfMemory;
use ms_base::seq::Seq;
use ms_lits::{Answers, Numbers};
use std::alloc::Global;

/// Whether the number stands in the place.
fn is_at(list: &[u32], place: usize, number: u32) -> bool
    ensures { IsTrue result ↔ (slice_get list.now place ≡ Some number) }
{
    match list.get(place) {
        Some(found) => *found == number,
        None => false,
    }
}

/// The atoms whose numbers are in `picked`, which has them in the order of `numbers`.
fn as_set(alloc: Global, numbers: &[u32], picked: &[u32]) -> Result<Numbers, OutOfMemory>
    requires fits { length numbers.now < 2 ^ 32 }
    requires picked { IsPickedFrom numbers.now picked.now }
    ensures { IfOk result (λ set. set ≡ atoms_of numbers.now picked.now) }
{
    let mut set = Seq::new(alloc);
    for (a, number) in numbers.iter().enumerate() {
        if is_at(picked, set.len(), *number) {
            set.push(a as u32)?;
        }
    }
    Ok(set)
}

/// The answers, each as the set of the atoms whose numbers are in it.
pub(crate) fn as_sets(
    alloc: Global,
    numbers: &[u32],
    answers: &Answers,
) -> Result<Answers, OutOfMemory>
    requires fits { length numbers.now < 2 ^ 32 }
    requires picked { All (IsPickedFrom numbers.now) answers.now }
    ensures { IfOk result (λ sets. sets ≡ map (atoms_of numbers.now) answers.now) }
{
    let mut sets = Seq::new(alloc);
    for answer in answers.as_slice() {
        let set = as_set(alloc, numbers, answer.as_slice())?;
        sets.push(set)?;
    }
    Ok(sets)
}
