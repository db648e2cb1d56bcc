ghost use Rattle.std.specs.Prelude.{ℕ, ◌≡◌, [], Some, length, slice_get};
ghost use Rattle.ms_nogood.specs.Store.{IsAsleepAt, Wakes};
ghost use Rattle.ms_join.specs.Modules.{Join, no_join};
ghost use Rattle.ms_search.specs.Runs.{AreAttached, empty_trail};
ghost use Rattle.ms_solver.specs.States.{CanRelease, Knowledge, Releases, Serves, kept_of};

use ms_base::atom_id::AtomId;
use ms_base::seq::Seq;
use ms_complete::Complete;
use ms_lits::Numbers;
use ms_loops::inputs_keep_consequences;
use ms_nogood::{Nogoods, Propagate};
use ms_search::SearchBy;
use ms_unfound::Unfounded;
use ms_watch::Watches;
use std::alloc::Global;
use std::marker::Model;

/// For each atom the key of the nogood that sleeps for it, where it was declared as an input.
pub(crate) type Sleepers = Seq<Option<usize>>;

/// A solver for a join that grows, by a way of propagating. What it has learned of the join it keeps.
#[derive(Drop)]
pub struct SolverBy<P: Propagate + Drop> {
    pub(crate) alloc: Global,
    pub(crate) store: Nogoods,
    pub(crate) search: SearchBy<P>,
    pub(crate) completion: Complete,
    pub(crate) loops: Unfounded,
    /// The number of each atom.
    pub(crate) atoms: Numbers,
    pub(crate) sleepers: Sleepers,
}

impl<P: Propagate + Drop> Model for SolverBy<P> {
    ghost use Rattle.ms_solver.specs.States.{State};

    ghost Value = { State P };

    ghost view = { λ s. record { knows = record { store = s.store; numbering = s.completion; loops = s.loops; atoms = s.atoms; sleepers = s.sleepers }; search = s.search } };
}

/// The solver, by watched literals.
pub type Solver = SolverBy<Watches>;

impl<P: Propagate + Drop> SolverBy<P> {
    /// The solver of the join of no modules, which takes no memory.
    pub fn new(alloc: Global) -> Self
        ensures serves { Serves result.knows no_join }
        ensures kept { kept_of result.knows ≡ [] }
        ensures attached { AreAttached (P.attached result.search.propagation) result.knows.store }
        ensures in_step { P.InStep result.search.propagation result.knows.store (empty_trail result.search.room) }
    {
        SolverBy {
            alloc,
            store: Nogoods::new(alloc),
            search: SearchBy::new(alloc),
            completion: Complete::new(alloc),
            loops: Unfounded::new(alloc),
            atoms: Seq::new(alloc),
            sleepers: Seq::new(alloc),
        }
    }

    /// The number of nogoods that are kept from solve to solve.
    pub fn kept(&self) -> u64
        ensures { result ≡ length (kept_of self.now.knows) }
    {
        self.store.trimmed(0).len() as u64
    }

    /// Makes an input an output without a rule. It takes no memory.
    pub fn release(&mut self, a: AtomId)
        requires join { CanRelease self.old.knows a }
        requires attached { AreAttached (P.attached self.old.search.propagation) self.old.knows.store }
        requires in_step { P.InStep self.old.search.propagation self.old.knows.store (empty_trail self.old.search.room) }
        ensures serves { (j released : Join) → Serves self.old.knows j → Releases j a released → Serves self.new.knows released }
        ensures kept { kept_of self.new.knows ≡ kept_of self.old.knows }
        ensures numbering { self.new.knows.numbering ≡ self.old.knows.numbering }
        ensures attached { AreAttached (P.attached self.new.search.propagation) self.new.knows.store }
        ensures in_step { P.InStep self.new.search.propagation self.new.knows.store (empty_trail self.new.search.room) }
    {
        inputs_keep_consequences();
        wake_sleeper(&mut self.store, &self.sleepers, a);
    }
}

/// Wakes the nogood that sleeps for an atom.
fn wake_sleeper(store: &mut Nogoods, sleepers: &Sleepers, a: AtomId)
    requires { (key : ℕ) × (slice_get sleepers.now a ≡ Some (Some key)) × IsAsleepAt store.old key }
    ensures { (key : ℕ) → slice_get sleepers.now a ≡ Some (Some key) → Wakes store.old store.new key }
{
    match sleepers.as_slice()[a.0 as usize] {
        Some(key) => store.wake(key),
        None => unreachable!(),
    }
}
