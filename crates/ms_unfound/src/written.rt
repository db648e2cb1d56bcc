// A loop nogood as a rising list of literals.
ghost use Rattle.std.specs.Prelude.{◌≡◌, ◌∷◌, Contains, IfOk, map};
ghost use Rattle.ms_complete.specs.Rules.{fails, holds};
ghost use Rattle.ms_complete.specs.Sets.{Writes};
ghost use Rattle.ms_unfound.specs.Loops.{sign_at};

use ms_base::memory::OutOfMemory;
use ms_base::seq::Seq;
use ms_lits::{Lit, Lits};
use std::alloc::Global;

/// The nogood of an atom that holds and of bodies that don't.
pub(crate) fn written(alloc: Global, atom: u32, mut bodies: Vec<u32>) -> Result<Lits, OutOfMemory>
    requires { ¬ Contains bodies.items atom }
    ensures { IfOk result (Writes (holds atom ∷ map fails bodies.items)) }
{
    bodies.push(atom)?;
    bodies.sort_unstable();
    bodies.dedup();
    lits_of(alloc, atom, bodies.as_slice())
}

/// The atom holds, and the other variables don't.
fn lits_of(alloc: Global, atom: u32, vars: &[u32]) -> Result<Lits, OutOfMemory>
    ensures { IfOk result (λ lits. lits ≡ map (sign_at atom) vars.now) }
{
    let mut lits = Seq::with_capacity(alloc, vars.len())?;
    for var in vars {
        let truth = *var == atom;
        lits.push(Lit { var: *var, truth })?;
    }
    Ok(lits)
}
