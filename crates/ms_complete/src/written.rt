// Sets of literals as nogoods: in rising order, each once.
ghost use Rattle.std.specs.Prelude.{◌≡◌, IfOk, OnOk, MatchOption, option_copied};
ghost use Rattle.ms_lits.specs.Literals.{Nogood};
ghost use Rattle.ms_complete.specs.Bases.{AddsExactly};
ghost use Rattle.ms_complete.specs.Sets.{Writes, pair, IsByVar};
ghost use Rattle.ms_complete.specs.Next.{IsNext};

use ms_base::memory::OutOfMemory;
use ms_lits::Lit;
use ms_nogood::{Kind, Nogoods};
use std::alloc::Global;

/// How a literal stands to the last of a rising list of none greater.
enum Next {
    Greater,
    Equal,
    Opposite,
}

fn next_to(last: Option<&Lit>, lit: Lit) -> Next
    ensures { IsNext (option_copied last.entry) lit result }
{
    match last {
        None => Next::Greater,
        Some(last) => {
            if last.var != lit.var {
                Next::Greater
            } else if last.truth == lit.truth {
                Next::Equal
            } else {
                Next::Opposite
            }
        }
    }
}

/// The nogood of a set of literals that stand in the order of their variables, or none exactly where the set has
/// both signs of one variable.
fn written(alloc: Global, lits: &[Lit]) -> Result<Option<Vec<Lit>>, OutOfMemory>
    requires { IsByVar lits.now }
    ensures { IfOk result (λ found. MatchOption found ((nogood : Nogood) → ¬ Writes lits.now nogood) (λ v. Writes lits.now v.items)) }
{
    let mut nogood = Vec::with_capacity(alloc, lits.len())?;
    for lit in lits {
        match next_to(nogood.last(), *lit) {
            Next::Greater => nogood.push(*lit)?,
            Next::Equal => (),
            Next::Opposite => return Ok(None),
        }
    }
    Ok(Some(nogood))
}

/// Adds the nogood of a set of literals to the program's, unless it has both signs of one variable.
pub(crate) fn add_set(
    alloc: Global,
    lits: &mut [Lit],
    store: &mut Nogoods,
) -> Result<(), OutOfMemory>
    ensures { OnOk result (AddsExactly store.old store.new (Writes lits.old)) }
{
    lits.sort_unstable_by_key(|lit| lit.var);
    match written(alloc, lits)? {
        None => Ok(()),
        Some(nogood) => {
            store.add(nogood.as_slice(), Kind::Base)?;
            Ok(())
        }
    }
}

/// Adds the nogood of two literals.
pub(crate) fn add_pair(
    alloc: Global,
    first: Lit,
    second: Lit,
    store: &mut Nogoods,
) -> Result<(), OutOfMemory>
    ensures { OnOk result (AddsExactly store.old store.new (Writes (pair first second))) }
{
    let mut lits = [first, second];
    add_set(alloc, &mut lits, store)
}
