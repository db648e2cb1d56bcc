// Laws of the assignments that a solve looks for. Each function does nothing but call the laws that its own follows
// from, and its contract speaks of every join.
ghost use Rattle.ms_solver.specs.Admitted.{AdmittedAreAsked, AskedAreFound, AtomsDecide};

use ms_loops::{assignments_are_possible, completion_and_loops};

/// The true atoms of an admitted assignment that has what is demanded are those of a set that is asked for.
pub fn admitted_are_asked()
    ensures { AdmittedAreAsked }
{
    assignments_are_possible();
}

/// Each set that is asked for is such an assignment, and contains no consequence that was kept.
pub fn asked_are_found()
    ensures { AskedAreFound }
{
    completion_and_loops();
}

/// Admitted assignments with the same true atoms are equal.
pub fn atoms_decide()
    ensures { AtomsDecide }
{
    assignments_are_possible();
}
