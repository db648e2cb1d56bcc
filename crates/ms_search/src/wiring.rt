// What is attached to the propagation of a search.
ghost use Rattle.std.specs.Prelude.{ℕ, ◌≡◌, ◌≢◌, ◌-◌, ◌⊎◌, All, Contains, OnOk, false, is_some, length, take, true};
ghost use Rattle.ms_lits.specs.Assignment.{Assignment};
ghost use Rattle.ms_nogood.specs.Store.{AreKept, Store, ends, slot_at};

use crate::engine::Engine;
use ms_lits::OutOfMemory;
use ms_nogood::{Nogoods, Propagate};

/// How many kept nogoods a search begins with at most.
pub(crate) const MOST_KEPT: u64 = 200_000;

impl<P: Propagate + Drop> Engine<P> {
    /// Detaches the kept nogoods that are too many.
    pub(crate) fn detach_trimmed(&mut self, store: &Nogoods)
        ensures gone { All (λ key. P.attached self.new.propagation key ≡ false) (take (length store.now.kept - MOST_KEPT) store.now.kept) }
        ensures stays { (key : ℕ) → ¬ Contains (take (length store.now.kept - MOST_KEPT) store.now.kept) key → P.attached self.new.propagation key ≡ P.attached self.old.propagation key }
        ensures in_step { (at : Store) (trail : Assignment) → P.InStep self.old.propagation at trail → P.InStep self.new.propagation at trail }
        ensures same { self.new ≡ record self.old { propagation = self.new.propagation } }
        ensures order { AreKept store.now.slots store.now.kept }
    {
        for key in store.trimmed(MOST_KEPT) {
            self.detach(*key);
        }
    }

    /// Attaches the fresh nogoods that aren't attached.
    pub(crate) fn attach_fresh(&mut self, store: &Nogoods) -> Result<(), OutOfMemory>
        requires level { self.old.trail.level ≡ 0 }
        requires in_step { P.InStep self.old.propagation store.now self.old.trail }
        ensures all { OnOk result (All (λ key. is_some (slot_at store.now key) ≡ true → P.attached self.new.propagation key ≡ true) store.now.fresh) }
        ensures stays { OnOk result ((key : ℕ) → P.attached self.old.propagation key ≡ true → P.attached self.new.propagation key ≡ true) }
        ensures known { OnOk result ((key : ℕ) → P.attached self.new.propagation key ≡ true → (P.attached self.old.propagation key ≡ true) ⊎ (is_some (slot_at store.now key) ≡ true)) }
        ensures in_step { OnOk result (P.InStep self.new.propagation store.now self.new.trail) }
        ensures same { OnOk result (self.new ≡ record self.old { propagation = self.new.propagation }) }
    {
        for key in store.fresh() {
            self.attach(store, *key)?;
        }
        Ok(())
    }

    /// Detaches the nogoods that the end of a solve drops.
    pub(crate) fn detach_passing(&mut self, store: &Nogoods)
        ensures gone { (key : ℕ) → ends (slot_at store.now key) ≡ true → P.attached self.new.propagation key ≡ false }
        ensures stays { (key : ℕ) → ends (slot_at store.now key) ≡ false → P.attached self.new.propagation key ≡ P.attached self.old.propagation key }
        ensures in_step { (at : Store) (trail : Assignment) → P.InStep self.old.propagation at trail → P.InStep self.new.propagation at trail }
        ensures same { self.new ≡ record self.old { propagation = self.new.propagation } }
    {
        for key in store.passing() {
            if store.ends(*key) {
                self.detach(*key);
            }
        }
    }

    /// Detaches the nogood of a key, where it is attached.
    fn detach(&mut self, key: usize)
        ensures gone { P.attached self.new.propagation key ≡ false }
        ensures others { (other : ℕ) → other ≢ key → P.attached self.new.propagation other ≡ P.attached self.old.propagation other }
        ensures in_step { (at : Store) (trail : Assignment) → P.InStep self.old.propagation at trail → P.InStep self.new.propagation at trail }
        ensures same { self.new ≡ record self.old { propagation = self.new.propagation } }
    {
        if self.propagation.attached(key) {
            self.propagation.detach(key);
        }
    }

    /// Attaches the nogood of a key, where there is one that isn't attached.
    fn attach(&mut self, store: &Nogoods, key: usize) -> Result<(), OutOfMemory>
        requires level { self.old.trail.level ≡ 0 }
        requires in_step { P.InStep self.old.propagation store.now self.old.trail }
        ensures here { OnOk result (is_some (slot_at store.now key) ≡ true → P.attached self.new.propagation key ≡ true) }
        ensures stays { OnOk result ((other : ℕ) → P.attached self.old.propagation other ≡ true → P.attached self.new.propagation other ≡ true) }
        ensures known { OnOk result ((other : ℕ) → P.attached self.new.propagation other ≡ true → (P.attached self.old.propagation other ≡ true) ⊎ (is_some (slot_at store.now other) ≡ true)) }
        ensures in_step { OnOk result (P.InStep self.new.propagation store.now self.new.trail) }
        ensures same { OnOk result (self.new ≡ record self.old { propagation = self.new.propagation }) }
    {
        if !store.contains(key) || self.propagation.attached(key) {
            return Ok(());
        }
        self.propagation.attach(store, &self.trail, key)?;
        Ok(())
    }
}
