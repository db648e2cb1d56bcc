// Solving: answer sets of the join that a solver serves, by a run of the search.
ghost use Rattle.std.specs.Prelude.{◌≤◌, IfOk, OnOk};
ghost use Rattle.ms_join.specs.Modules.{Join};
ghost use Rattle.ms_search.specs.Runs.{AreAttached, empty_trail};
ghost use Rattle.ms_solver.specs.Solves.{CanSolve, Solves};
ghost use Rattle.ms_solver.specs.States.{Serves};

use crate::question::question_of;
use crate::solver::SolverBy;
use crate::told::as_sets;
use ms_base::memory::OutOfMemory;
use ms_join::assumption::AtomAsk;
use ms_loops::{assignments_are_possible, completion_and_loops, possible_is_over_base};
use ms_nogood::Propagate;
use ms_search::Run;

impl<P: Propagate + Drop> SolverBy<P> {
    /// Lists answer sets of the join that have what is assumed, where each input is free, until as many are found as
    /// were asked for, there are no others, or as many nogoods were learned as the limit allows. Each is the rising
    /// list of its atoms. The log says how it went, and what was learned and follows from the join alone is kept.
    pub fn solve(&mut self, ask: &AtomAsk) -> Result<Run, OutOfMemory>
        requires count { 1 ≤ ask.now.count }
        requires join { CanSolve self.old.knows ask.now }
        requires attached { AreAttached (P.attached self.old.search.propagation) self.old.knows.store }
        requires in_step { P.InStep self.old.search.propagation self.old.knows.store (empty_trail self.old.search.room) }
        ensures solves { IfOk result (λ run. (j : Join) → Serves self.old.knows j → Solves j self.old.knows ask.now run self.new.knows) }
        ensures attached { OnOk result (AreAttached (P.attached self.new.search.propagation) self.new.knows.store) }
        ensures in_step { OnOk result (P.InStep self.new.search.propagation self.new.knows.store (empty_trail self.new.search.room)) }
    {
        assignments_are_possible();
        completion_and_loops();
        possible_is_over_base();
        let numbers = self.atoms.as_slice();
        let question = question_of(self.alloc, &self.completion, numbers, ask)?;
        let run = self
            .search
            .run(&mut self.store, &mut self.loops, &question, &self.atoms)?;
        let answers = as_sets(self.alloc, self.atoms.as_slice(), &run.answers)?;
        // The store says which keys its kept nogoods have.
        let _kept = self.store.trimmed(0);
        Ok(Run {
            ending: run.ending,
            answers,
            notes: run.notes,
        })
    }
}
