// Taking a module: its things, its completion and its loops, and a nogood asleep for each new input.
ghost use Rattle.std.specs.Prelude.{ℕ, ◌≡◌, ◌<◌, ◌≤◌, ◌+◌, ◌++◌, ◌∷◌, [], All, Contains, IfOk, None, OnOk, drop, length};
ghost use Rattle.std.specs.List.{AllZip};
ghost use Rattle.ms_join.specs.Modules.{Join};
ghost use Rattle.ms_join.specs.Things.Thing.{atom};
ghost use Rattle.ms_nogood.specs.Store.{Adds};
ghost use Rattle.ms_complete.specs.Notes.{Tells};
ghost use Rattle.ms_complete.specs.Rules.{holds};
ghost use Rattle.ms_search.specs.Runs.{AreAttached, empty_trail};
ghost use Rattle.ms_solver.specs.Extending.{AddsPlaces, KeepsNumbers, KeepsSlots, PutsToSleep};
ghost use Rattle.ms_problem.specs.Numbered.{AreNumbers};
ghost use Rattle.ms_solver.specs.States.{CanExtend, Joins, Serves, kept_of};

use crate::solver::{Sleepers, SolverBy};
use ms_base::atom_id::AtomId;
use ms_base::memory::OutOfMemory;
use ms_complete::Complete;
use ms_join::ground_module::GroundModule;
use ms_lits::{Lit, Notes, Numbers};
use ms_loops::consequences_stay;
use ms_nogood::{Nogoods, Propagate};
use ms_term::Terms;

impl<P: Propagate + Drop> SolverBy<P> {
    /// Takes a module, and gives the declarations of the things that are new. It makes room for the release of each
    /// new input. After an error some of it may be done.
    pub fn extend(&mut self, terms: &Terms, m: &GroundModule) -> Result<Notes, OutOfMemory>
        requires join { CanExtend self.old.knows m.now }
        requires names { All (λ name. name < length terms.now) (self.old.knows.numbering.names ++ m.now.names) }
        requires attached { AreAttached (P.attached self.old.search.propagation) self.old.knows.store }
        requires in_step { P.InStep self.old.search.propagation self.old.knows.store (empty_trail self.old.search.room) }
        ensures serves { OnOk result ((j joined : Join) → Serves self.old.knows j → Joins j m.now joined → Serves self.new.knows joined) }
        ensures notes { IfOk result (AllZip (Tells self.new.knows.numbering terms.now) (drop (length self.old.knows.numbering.things) self.new.knows.numbering.things)) }
        ensures numbering { OnOk result (KeepsNumbers m.now self.old.knows.numbering self.new.knows.numbering) }
        ensures kept { OnOk result (kept_of self.new.knows ≡ kept_of self.old.knows) }
        ensures keys { OnOk result (KeepsSlots self.old.knows.store self.new.knows.store) }
        ensures attached { OnOk result (AreAttached (P.attached self.new.search.propagation) self.new.knows.store) }
        ensures in_step { OnOk result (P.InStep self.new.search.propagation self.new.knows.store (empty_trail self.new.search.room)) }
    {
        consequences_stay();
        let known = self.completion.things();
        self.completion.extend(m, &mut self.store)?;
        self.loops.extend(m, &self.completion)?;
        number_atoms(&self.completion, m.first_new, m.fresh, &mut self.atoms)?;
        add_places(m.fresh, &mut self.sleepers)?;
        put_to_sleep(
            m.first_new,
            m.externals.as_slice(),
            self.atoms.as_slice(),
            &mut self.store,
            &mut self.sleepers,
        )?;
        self.completion.notes_from(terms, known)
    }
}

/// Adds the numbers of so many atoms from one on.
fn number_atoms(
    completion: &Complete,
    first: u32,
    count: u32,
    atoms: &mut Numbers,
) -> Result<(), OutOfMemory>
    requires declared { (a : ℕ) → first ≤ a → a < first + count → Contains completion.now.things (atom a) }
    requires numbers { AreNumbers completion.now.things first atoms.old }
    ensures { OnOk result (AreNumbers completion.now.things (first + count) atoms.new) }
{
    let Some(end) = first.checked_add(count) else {
        return Err(OutOfMemory);
    };
    for a in first..end {
        atoms.push(completion.thing_of(AtomId(a)))?;
    }
    Ok(())
}

/// Adds places for so many atoms, where nothing sleeps.
fn add_places(count: u32, sleepers: &mut Sleepers) -> Result<(), OutOfMemory>
    ensures { OnOk result (AddsPlaces count sleepers.old sleepers.new) }
{
    for _ in 0..count {
        sleepers.push(None)?;
    }
    Ok(())
}

/// For each of these atoms from a number on, puts the nogood that makes it false into the store, asleep.
fn put_to_sleep(
    first: u32,
    externals: &[AtomId],
    atoms: &[u32],
    store: &mut Nogoods,
    sleepers: &mut Sleepers,
) -> Result<(), OutOfMemory>
    requires numbered { All (λ a. a < length atoms.now) externals.now }
    requires places { length sleepers.old ≡ length atoms.now }
    ensures { OnOk result (PutsToSleep first externals.now atoms.now store.old sleepers.old store.new sleepers.new) }
{
    for a in externals {
        if a.0 >= first {
            let var = atoms[a.0 as usize];
            let key = hold_false(var, store)?;
            sleepers.set(a.0 as usize, Some(key));
        }
    }
    Ok(())
}

/// Puts the nogood that a thing is true into the store, asleep.
fn hold_false(number: u32, store: &mut Nogoods) -> Result<usize, OutOfMemory>
    ensures { IfOk result (Adds store.old store.new (record { lits = holds number ∷ []; kind = None })) }
{
    store.hold(Lit {
        var: number,
        truth: true,
    })
}
