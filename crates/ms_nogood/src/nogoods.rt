ghost use Rattle.std.specs.Prelude.{◌≡◌, ◌≢◌, ◌<◌, ◌≤◌, ◌-◌, ◌∷◌, ◌++◌, [], ℕ, true, IfOk, OnErr, IsSome, Some, None, AllPairs, Contains, option_map, MatchOption, is_some, take, length, vec_capacity};
ghost use Rattle.std.specs.List.{slice_index_or};
ghost use Rattle.ms_nogood.specs.Keys.{FindsFrom};
ghost use Rattle.ms_nogood.specs.Store.{Adds, Wakes, Drops, CoverEnding, IsAsleepAt, slot_at, nogood_at, ends, ends_by_kind, EndsSolve, AreKept, Trims};

use crate::kind::Kind;
use ms_lits::{Lit, OutOfMemory};
use slab::Slab;
use smallvec::SmallVec;
use std::alloc::Global;
use std::marker::Model;

#[derive(Drop)]
struct Slot {
    lits: SmallVec<Lit, 4>,
    /// None while the nogood is asleep.
    kind: Option<Kind>,
}

impl Model for Slot {
    ghost use Rattle.ms_nogood.specs.Store.{Stored};

    ghost Value = { Stored };

    ghost view = { λ s. record { lits = s.lits.items; kind = s.kind } };
}

impl Slot {
    fn ends_with_solve(&self) -> bool
        ensures { result ≡ ends_by_kind self.now.kind }
    {
        match self.kind {
            Some(kind) => kind.ends_with_solve(),
            None => false,
        }
    }
}

/// Nogoods under keys. A key keeps its nogood and its kind until it is dropped.
#[derive(Drop)]
pub struct Nogoods {
    alloc: Global,
    slots: Slab<Slot>,
    /// The keys of the kept nogoods, in the order in which they were added.
    kept: Vec<usize>,
    /// Keys among which those are that the end of a solve drops.
    passing: Vec<usize>,
    /// The keys that were given since these were last forgotten.
    fresh: Vec<usize>,
}

impl Model for Nogoods {
    ghost use Rattle.ms_nogood.specs.Store.{Store, IsStore};

    ghost Value = { Store };

    ghost view = { λ n. record { slots = n.slots.slots; kept = n.kept.items; fresh = n.fresh.items } };

    ghost invariant = { λ n. IsStore n.slots.slots n.kept.items n.passing.items n.slots.capacity };
}

impl Nogoods {
    /// An empty store.
    pub fn new(alloc: Global) -> Nogoods
        ensures { result ≡ record { slots = []; kept = []; fresh = [] } }
    {
        Nogoods {
            alloc,
            slots: Slab::new(alloc),
            kept: Vec::new(alloc),
            passing: Vec::new(alloc),
            fresh: Vec::new(alloc),
        }
    }

    /// Adds a nogood of different variables, under a new key.
    pub fn add(&mut self, lits: &[Lit], kind: Kind) -> Result<usize, OutOfMemory>
        requires { AllPairs (λ l m. l.var ≢ m.var) lits.now }
        ensures added { IfOk result (Adds self.old self.new (record { lits = lits.now; kind = Some kind })) }
        ensures unchanged { OnErr result (self.new ≡ self.old) }
    {
        let lits = SmallVec::from_slice(self.alloc, lits)?;
        self.kept.reserve(1)?;
        self.passing.reserve(1)?;
        self.fresh.reserve(1)?;
        let key = self.slots.insert(Slot {
            lits,
            kind: Some(kind),
        })?;
        push(&mut self.fresh, key);
        match kind {
            Kind::Base => (),
            Kind::Kept => push(&mut self.kept, key),
            Kind::Temporary | Kind::Reason => push(&mut self.passing, key),
        }
        Ok(key)
    }

    /// Takes a key for the nogood of one literal. It is asleep: not in the store until it is woken.
    pub fn hold(&mut self, lit: Lit) -> Result<usize, OutOfMemory>
        ensures held { IfOk result (Adds self.old self.new (record { lits = lit ∷ []; kind = None })) }
        ensures unchanged { OnErr result (self.new ≡ self.old) }
    {
        let mut lits = SmallVec::new(self.alloc);
        lits.push(lit)?;
        self.fresh.reserve(1)?;
        let key = self.slots.insert(Slot { lits, kind: None })?;
        push(&mut self.fresh, key);
        Ok(key)
    }

    /// Puts a nogood that is asleep into the store, with the kind Base.
    pub fn wake(&mut self, key: usize)
        requires { IsAsleepAt self.old key }
        ensures { Wakes self.old self.new key }
    {
        if let Some(slot) = self.slots.get_mut(key) {
            slot.kind = Some(Kind::Base);
        }
    }

    /// Whether the nogood of a key is in the store, and not asleep.
    pub fn awake(&self, key: usize) -> bool
        requires { IsSome (slot_at self.now key) }
        ensures { result ≡ is_some (nogood_at self.now key) }
    {
        match self.slots.get(key) {
            Some(slot) => slot.kind.is_some(),
            None => false,
        }
    }

    /// The literals of the nogood of a key, asleep or not.
    pub fn get(&self, key: usize) -> &[Lit]
        requires { IsSome (slot_at self.now key) }
        ensures { option_map (λ s. s.lits) (slot_at self.now key) ≡ Some result.now }
    {
        match self.slots.get(key) {
            Some(slot) => slot.lits.as_slice(),
            None => unreachable!(),
        }
    }

    /// The literals of the nogood of a key of the store.
    pub(crate) fn find(&self, key: usize) -> Option<&[Lit]>
        ensures { MatchOption result (nogood_at self.now key ≡ None) (λ lits. option_map (λ s. s.lits) (nogood_at self.now key) ≡ Some lits.now) }
    {
        match self.slots.get(key) {
            Some(slot) if slot.kind.is_some() => Some(slot.lits.as_slice()),
            _ => None,
        }
    }

    /// A number above all keys.
    pub(crate) fn end(&self) -> usize
        ensures { (key : ℕ) → result ≤ key → slot_at self.now key ≡ None }
    {
        self.slots.capacity()
    }

    /// The kind of the nogood of a key of the store.
    pub fn kind(&self, key: usize) -> Kind
        requires { IsSome (nogood_at self.now key) }
        ensures kind { option_map (λ s. s.kind) (slot_at self.now key) ≡ Some (Some result) }
        ensures order { AreKept self.now.slots self.now.kept }
    {
        match self.slots.get(key).and_then(|slot| slot.kind) {
            Some(kind) => kind,
            None => unreachable!(),
        }
    }

    /// Drops the nogoods that last for one solve: those of the kinds Temporary and Reason.
    pub fn end_solve(&mut self)
        ensures { EndsSolve self.old self.new }
    {
        while let Some(key) = self.passing.pop() {
            if ends_at(&self.slots, key) {
                self.slots.try_remove(key);
            }
        }
    }

    /// Drops a nogood before the end of the solve that it lasts for.
    pub fn drop_passing(&mut self, key: usize)
        requires { ends (slot_at self.old key) ≡ true }
        ensures { Drops self.old self.new key }
    {
        self.slots.try_remove(key);
    }

    /// Forgets which keys are fresh.
    pub fn forget_fresh(&mut self)
        ensures { self.new ≡ record self.old { fresh = [] } }
    {
        self.fresh.clear();
    }

    /// Drops the kept nogoods but for so many that were added last.
    pub fn trim(&mut self, keep: u64)
        ensures { Trims self.old self.new keep }
    {
        let count = self.kept.len().saturating_sub(keep as usize);
        for i in 0..count {
            self.slots.try_remove(self.kept[i]);
        }
        self.kept.drain(..count);
    }

    /// The least key of at least `from`, of the store or of a nogood asleep.
    pub fn keys_from(&self, from: usize) -> Option<usize>
        ensures { FindsFrom (λ key. is_some (slot_at self.now key)) from result }
    {
        for key in from..self.end() {
            if self.slots.get(key).is_some() {
                return Some(key);
            }
        }
        None
    }

    /// The keys that were given since `forget_fresh` was last called, in this order. Some may have been dropped.
    pub fn fresh(&self) -> &[usize]
        ensures { result.now ≡ self.now.fresh }
    {
        self.fresh.as_slice()
    }

    /// Keys among which all those are that `end_solve` would drop.
    pub fn passing(&self) -> &[usize]
        ensures { CoverEnding self.now.slots result.now }
    {
        self.passing.as_slice()
    }

    /// The keys that `trim` would drop.
    pub fn trimmed(&self, keep: u64) -> &[usize]
        ensures keys { result.now ≡ take (length self.now.kept - keep) self.now.kept }
        ensures order { AreKept self.now.slots self.now.kept }
    {
        let count = self.kept.len().saturating_sub(keep as usize);
        &self.kept[..count]
    }

    /// Whether a key has a nogood, asleep or not.
    pub fn contains(&self, key: usize) -> bool
        ensures { result ≡ is_some (slot_at self.now key) }
    {
        self.slots.get(key).is_some()
    }

    /// Whether `end_solve` would drop the nogood of a key.
    pub fn ends(&self, key: usize) -> bool
        ensures { result ≡ ends (slot_at self.now key) }
    {
        ends_at(&self.slots, key)
    }
}

fn ends_at(slots: &Slab<Slot>, key: usize) -> bool
    ensures { result ≡ ends (slice_index_or slots.now.slots key None) }
{
    match slots.get(key) {
        Some(slot) => slot.ends_with_solve(),
        None => false,
    }
}

/// Appends to a list that has room.
fn push(list: &mut Vec<usize>, key: usize)
    requires { length list.old.items < vec_capacity list.old }
    ensures { list.new.items ≡ list.old.items ++ key ∷ [] }
{
    match list.push(key) {
        Ok(()) => (),
        Err(_) => unreachable!(),
    }
}
