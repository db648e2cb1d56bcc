// Conflict analysis: from a nogood that is whole on a trail to the first unique implication point of the
// present level.
#![tactic(auto)]

ghost use Rattle.std.specs.Prelude.{◌≡◌, ◌≢◌, ◌<◌, ◌≤◌, ◌⊎◌, All, AllPairs, IfOk, IsTrue, false};
ghost use Rattle.ms_lits.specs.Assignment.{IsWholeIn};
ghost use Rattle.ms_lits.specs.Literals.{IsRefuted};
ghost use Rattle.ms_nogood.specs.Propagation.{IsStored, IsWholeAt};
ghost use Rattle.ms_nogood.specs.Store.{Stored, nogood_at};
ghost use Rattle.ms_refutation.specs.Sets.{AreReasoned};
ghost use Rattle.ms_analyze.specs.Analysis.{AreFixed, HasLevel, HasTemporaryReason, IsAsserting, IsGreatestBelow, IsOnlyDecision, IsNotTemporary, IsTemporaryAt};

mod cut;

use cut::Cut;
use ms_lits::{Lits, Numbers, Trail};
use ms_nogood::Nogoods;
pub use ms_nogood::OutOfMemory;
use std::alloc::Global;

/// What a conflict teaches.
#[derive(Debug, Drop)]
pub struct Learned {
    /// A nogood. Its first literal is the one of the level of the conflict.
    pub lits: Lits,
    /// The level to jump back to.
    pub back: u32,
    /// Whether the nogood may rest on a temporary one.
    pub temporary: bool,
    /// The variables that were resolved upon.
    pub resolved: Numbers,
}

/// The first unique implication point of the present level, from a nogood that is whole on the trail.
pub fn analyze(
    alloc: Global,
    trail: &Trail,
    store: &Nogoods,
    violated: usize,
) -> Result<Learned, OutOfMemory>
    requires level { 1 ≤ trail.now.level }
    requires whole { IsWholeAt store.now trail.now.entries violated }
    requires present { (s : Stored) → nogood_at store.now violated ≡ Some s → HasLevel trail.now.entries s.lits trail.now.level }
    requires reasons { AreReasoned store.now trail.now.entries }
    requires decision { IsOnlyDecision trail.now.level trail.now.entries }
    ensures whole { IfOk result (λ r. IsWholeIn trail.now.entries r.lits) }
    ensures room { IfOk result (λ r. All (λ l. l.var < trail.now.room) r.lits) }
    ensures different { IfOk result (λ r. AllPairs (λ l m. l.var ≢ m.var) r.lits) }
    ensures asserting { IfOk result (λ r. IsAsserting trail.now r.lits r.back) }
    ensures back { IfOk result (λ r. IsGreatestBelow trail.now r.lits r.back) }
    ensures refuted { IfOk result (λ r. IsRefuted (IsStored store.now) r.lits) }
    ensures lasting { IfOk result (λ r. r.temporary ≡ false → IsRefuted (IsNotTemporary store.now) r.lits) }
    ensures temporary { IfOk result (λ r. IsTrue r.temporary → IsTemporaryAt store.now violated ⊎ HasTemporaryReason store.now trail.now.entries) }
    ensures resolved { IfOk result (λ r. All (λ v. v < trail.now.room) r.resolved) }
{
    analyze_above(alloc, trail, store, violated, 0)
}

/// The same, without the literals of the first entries, so many of which are fixed.
pub fn analyze_above(
    alloc: Global,
    trail: &Trail,
    store: &Nogoods,
    violated: usize,
    fixed: usize,
) -> Result<Learned, OutOfMemory>
    requires level { 1 ≤ trail.now.level }
    requires whole { IsWholeAt store.now trail.now.entries violated }
    requires present { (s : Stored) → nogood_at store.now violated ≡ Some s → HasLevel trail.now.entries s.lits trail.now.level }
    requires reasons { AreReasoned store.now trail.now.entries }
    requires decision { IsOnlyDecision trail.now.level trail.now.entries }
    requires fixed { AreFixed store.now trail.now.entries fixed }
    ensures whole { IfOk result (λ r. IsWholeIn trail.now.entries r.lits) }
    ensures room { IfOk result (λ r. All (λ l. l.var < trail.now.room) r.lits) }
    ensures different { IfOk result (λ r. AllPairs (λ l m. l.var ≢ m.var) r.lits) }
    ensures asserting { IfOk result (λ r. IsAsserting trail.now r.lits r.back) }
    ensures back { IfOk result (λ r. IsGreatestBelow trail.now r.lits r.back) }
    ensures refuted { IfOk result (λ r. IsRefuted (IsStored store.now) r.lits) }
    ensures lasting { IfOk result (λ r. r.temporary ≡ false → IsRefuted (IsNotTemporary store.now) r.lits) }
    ensures temporary { IfOk result (λ r. IsTrue r.temporary → IsTemporaryAt store.now violated ⊎ HasTemporaryReason store.now trail.now.entries) }
    ensures resolved { IfOk result (λ r. All (λ v. v < trail.now.room) r.resolved) }
{
    let mut cut = Cut::new(alloc);
    let mut resolved = Vec::new(alloc);
    cut.mark(violated, fixed, trail.len(), trail, store)?;
    let mut last = cut.take_last();
    while let Some(reason) = cut.reason_of(last, trail) {
        resolved.push(trail.at(last).var)?;
        cut.mark(reason, fixed, last, trail, store)?;
        last = cut.take_last();
    }
    cut.learned(last, resolved, alloc, trail)
}
