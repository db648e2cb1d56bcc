// Laws of refutation by unit closure, which conflict analysis, search and a checker of logs stand on. Each
// is the contract of a function that does nothing: it speaks of every set, every nogood and every trail.
#![tactic(auto)]

ghost use Rattle.std.specs.Prelude.{ℕ, ◌≡◌, ◌≤◌, ◌⊎◌, Bool, List, All, Contains};
ghost use Rattle.ms_lits.specs.declared.lit.Lit.{Lit};
ghost use Rattle.ms_lits.specs.declared.trail.Entry.{Entry};
ghost use Rattle.ms_lits.specs.Assignment.{Assignment, HoldsIn, IsAssignment, IsWholeIn, up_to};
ghost use Rattle.ms_lits.specs.Literals.{HasWhole, IsContained, IsDerived, IsNew, IsRefuted, IsWhole, Nogood, opposite_of};
ghost use Rattle.ms_nogood.specs.Propagation.{IsSettled, IsStored, IsWholeAt, Propagates, lits_of};
ghost use Rattle.ms_nogood.specs.Looks.{IsCalmIn};
ghost use Rattle.ms_nogood.specs.Store.{Adds, Store, Stored};
ghost use Rattle.ms_nogood.specs.Theories.{HasOpen};
ghost use Rattle.ms_refutation.specs.Sets.{AreClosedPrefixes, AreDecided, AreReasoned, ContainsOne, IsTotalSet, Passes, Resolves};

/// Where a start is refuted, no total assignment that contains it is without a whole nogood.
pub fn refutation_is_sound()
    ensures { (nogoods : Nogood → Bool) (start : List Lit) (set : Lit → Bool) → IsTotalSet set → IsRefuted (Passes nogoods) start → IsWhole set start → ¬ HasWhole (Passes nogoods) set → ⊥ }
{}

/// What is refuted stays so when it is resolved with a nogood.
pub fn resolvents_are_refuted()
    ensures { (nogoods : Nogood → Bool) (first second resolvent : Nogood) (lit : Lit) → IsRefuted (Passes nogoods) first → Passes nogoods second → Resolves first second lit resolvent → IsRefuted (Passes nogoods) resolvent }
{}

/// A nogood all of whose literals but one hold in settled entries, where the opposite of that one doesn't
/// hold, brings something new.
pub fn settled_entries_witness_newness()
    ensures { (store : Store) (entries : List Entry) (nogood : Nogood) (lit : Lit) → IsSettled store entries → Contains nogood lit → All (λ other. (other ≡ lit) ⊎ HoldsIn entries other) nogood → ¬ HoldsIn entries (opposite_of lit) → IsNew (IsStored store) nogood }
{}

/// A nogood that brings something new contains none of the nogoods.
pub fn what_is_new_contains_none()
    ensures { (nogoods : Nogood → Bool) (nogood small : Nogood) → IsNew (Passes nogoods) nogood → Passes nogoods small → IsContained nogood small → ⊥ }
{}

/// A jump back keeps the lower levels settled.
pub fn jumps_keep_closed_prefixes()
    ensures { (store : Store) (entries : List Entry) (present level : ℕ) → level ≤ present → AreClosedPrefixes store present entries → AreClosedPrefixes store level (up_to level entries) }
{}

/// Where a propagation ends with a whole nogood, the literals that it began with are refuted.
pub fn a_violation_refutes()
    ensures { (store : Store) (old new : Assignment) (key : ℕ) → Propagates store old new → IsWholeAt store new.entries key → IsRefuted (IsStored store) (lits_of old.entries) }
{}

/// Where a propagation ends settled, the literals that it began with aren't refuted.
pub fn a_settled_end_refutes_nothing()
    ensures { (store : Store) (old new : Assignment) → IsAssignment new → Propagates store old new → IsSettled store new.entries → ¬ IsRefuted (IsStored store) (lits_of old.entries) }
{}

/// Each entry of a trail follows from the decisions.
pub fn entries_follow_from_decisions()
    ensures { (store : Store) (entries : List Entry) (start : List Lit) → AreReasoned store entries → AreDecided start entries → All (IsDerived (IsStored store) start) (lits_of entries) }
{}

/// What is violated or unit on settled entries contains no nogood of the store.
pub fn what_is_found_contains_none()
    ensures { (store : Store) (entries : List Entry) (nogood small : Nogood) → IsSettled store entries → IsWholeIn entries nogood ⊎ HasOpen entries nogood → IsStored store small → IsContained nogood small → ⊥ }
{}

/// What is refuted stays so with more nogoods.
pub fn refutation_lasts()
    ensures { (fewer more : Nogood → Bool) (start : List Lit) → ((nogood : Nogood) → Passes fewer nogood → Passes more nogood) → IsRefuted (Passes fewer) start → IsRefuted (Passes more) start }
{}

/// What brings something new does so with other nogoods too, where each of these contains one of the first.
pub fn newness_lasts()
    ensures { (small large : Nogood → Bool) (nogood : Nogood) → ((other : Nogood) → Passes large other → ContainsOne (Passes small) other) → IsNew (Passes small) nogood → IsNew (Passes large) nogood }
{}

/// Settled entries stay so with a nogood more that is calm in them.
pub fn a_calm_nogood_keeps_settled()
    ensures { (old new : Store) (stored : Stored) (key : ℕ) (entries : List Entry) → Adds old new stored key → IsCalmIn entries stored.lits → IsSettled old entries → IsSettled new entries }
{}
