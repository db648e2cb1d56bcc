// The search for a loop of a part that has no support from outside.
ghost use Rattle.std.specs.Prelude.{ℕ, ◌≡◌, ◌<◌, All, IfOk, IsTrue, MatchOption, length};
ghost use Rattle.ms_join.specs.Sets.{has_none};
ghost use Rattle.ms_unfound.specs.Loops.{is_outer, outer_bodies};
ghost use Rattle.ms_unfound.specs.Marks.{IsBare, IsLeast, flag_at, unmarked_in};
ghost use Rattle.ms_unfound.specs.Parts.{IsPart};
ghost use Rattle.ms_unfound.specs.Settled.{IsPressingLoop, IsSettledPart};

use crate::marking::{is_marked, may_hold, supported};
use crate::part::{Part, Support};
use crate::written::written;
use ms_base::memory::OutOfMemory;
use ms_lits::{Lits, Trail};
use std::alloc::Global;

/// The first place whose atom isn't false and has no mark.
fn first_bare(atoms: &[u32], trail: &Trail, marked: &[bool]) -> Option<usize>
    requires { All (λ var. var < trail.now.room) atoms.now }
    ensures { MatchOption result
        ((i : ℕ) → ¬ IsBare trail.now.entries atoms.now marked.now i)
        (IsBare trail.now.entries atoms.now marked.now) }
{
    for (i, var) in atoms.iter().enumerate() {
        if may_hold(trail, *var) && !is_marked(marked, i) {
            return Some(i);
        }
    }
    None
}

/// Whether the place is of the component and has no mark.
fn is_left(numbers: &[u32], marked: &[bool], number: u32, place: usize) -> bool
    ensures { result ≡ unmarked_in numbers.now marked.now number place }
{
    numbers.get(place).copied().unwrap_or(0) == number && !is_marked(marked, place)
}

/// Whether the support gives an atom of what is left of the component, and leans on none of it.
fn is_outer(support: &Support, numbers: &[u32], marked: &[bool], number: u32) -> bool
    ensures { result ≡ is_outer (unmarked_in numbers.now marked.now number) support.now }
{
    is_left(numbers, marked, number, support.head)
        && none_left(support.inner.as_slice(), numbers, marked, number)
}

fn none_left(places: &[usize], numbers: &[u32], marked: &[bool], number: u32) -> bool
    ensures { result ≡ has_none (unmarked_in numbers.now marked.now number) places.now }
{
    places
        .iter()
        .all(|place| !is_left(numbers, marked, number, *place))
}

/// The bodies that support what is left of a component from outside.
fn outer_bodies(
    alloc: Global,
    supports: &[Support],
    numbers: &[u32],
    marked: &[bool],
    number: u32,
) -> Result<Vec<u32>, OutOfMemory>
    ensures { IfOk result (λ bodies. bodies.items ≡ outer_bodies (unmarked_in numbers.now marked.now number) supports.now) }
{
    let mut bodies = Vec::new(alloc);
    for support in supports {
        if is_outer(support, numbers, marked, number) {
            bodies.push(support.body)?;
        }
    }
    Ok(bodies)
}

/// The nogood of the atom in a place and what is left of its component.
fn nogood_at(
    alloc: Global,
    part: &Part,
    trail: &Trail,
    marked: &[bool],
    place: usize,
) -> Result<Lits, OutOfMemory>
    requires part { IsPart trail.now.room part.now }
    requires least { IsLeast trail.now.entries part.now.supports (flag_at marked.now) }
    requires bare { IsBare trail.now.entries part.now.atoms marked.now place }
    ensures { IfOk result (IsPressingLoop part.now trail.now.entries) }
{
    let numbers = part.numbers.as_slice();
    let atom = part.atoms.as_slice()[place];
    let number = numbers[place];
    let bodies = outer_bodies(alloc, part.supports.as_slice(), numbers, marked, number)?;
    written(alloc, atom, bodies)
}

/// A loop nogood of the part that is violated or unit with its atom open, or none exactly where the part is
/// settled.
pub(crate) fn pressing_loop(
    alloc: Global,
    part: &Part,
    trail: &Trail,
) -> Result<Option<Lits>, OutOfMemory>
    requires { IsPart trail.now.room part.now }
    ensures { IfOk result (λ found. MatchOption found (IsSettledPart part.now trail.now.entries) (IsPressingLoop part.now trail.now.entries)) }
{
    let marked = supported(alloc, part, trail)?;
    match first_bare(part.atoms.as_slice(), trail, marked.as_slice()) {
        None => Ok(None),
        Some(place) => Ok(Some(nogood_at(alloc, part, trail, marked.as_slice(), place)?)),
    }
}
