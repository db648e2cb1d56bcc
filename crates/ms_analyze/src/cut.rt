ghost use Rattle.std.specs.Prelude.{◌≡◌, ◌<◌, ◌≤◌, ◌∷◌, ◌++◌, [], ◌||◌, false, length, reverse, All, IfNone, IfOk, IfSome, IsSome, OnOk, Some};
ghost use Rattle.std.specs.Ordering.{nat_cmp};
ghost use Rattle.std.specs.List.Sorted.{IsStrictlySortedBy};
ghost use Rattle.ms_lits.specs.Assignment.{IsAssignment, entry_of};
ghost use Rattle.ms_nogood.specs.Store.{Stored, nogood_at};
ghost use Rattle.ms_analyze.specs.Analysis.{IsOnlyDecision, is_temporary, is_temporary_kind};
ghost use Rattle.ms_analyze.specs.Cuts.{HasPlace, IsAssignedAt, IsReadOff, entry_at, level_at, marked};

use crate::{Learned, OutOfMemory};
use ms_base::seq::Seq;
use ms_lits::{Lit, Trail};
use ms_nogood::{Kind, Nogoods};
use std::alloc::Global;
use std::collections::BTreeSet;

/// The literals of a nogood that is whole on a trail, by their places on the trail.
#[derive(Drop)]
pub(crate) struct Cut {
    places: BTreeSet<usize, Global>,
    /// Whether a temporary nogood had a part in it.
    temporary: bool,
}

impl Cut {
    pub(crate) fn new(alloc: Global) -> Cut
        ensures places { result.places.keys ≡ [] }
        ensures temporary { result.temporary ≡ false }
    {
        Cut {
            places: BTreeSet::new(alloc),
            temporary: false,
        }
    }

    /// Adds those literals of a nogood of the store that lie below a place of the trail, and not among the
    /// fixed ones.
    pub(crate) fn mark(
        &mut self,
        key: usize,
        fixed: usize,
        below: usize,
        trail: &Trail,
        store: &Nogoods,
    ) -> Result<(), OutOfMemory>
        requires { IsAssignedAt store.now trail.now key }
        ensures places { OnOk result ((s : Stored) → nogood_at store.now key ≡ Some s → self.new.places.keys ≡ marked trail.now.entries fixed below self.old.places.keys s.lits) }
        ensures temporary { self.new.temporary ≡ self.old.temporary || is_temporary (nogood_at store.now key) }
    {
        self.temporary = self.temporary || is_temporary(store.kind(key));
        mark_lits(&mut self.places, store.get(key), fixed, below, trail)
    }

    /// Takes the last place out.
    pub(crate) fn take_last(&mut self) -> usize
        requires { 0 < length self.old.places.keys }
        ensures places { self.old.places.keys ≡ self.new.places.keys ++ result ∷ [] }
        ensures below { All (λ place. place < result) self.new.places.keys }
        ensures ordered { IsStrictlySortedBy nat_cmp self.new.places.keys }
        ensures temporary { self.new.temporary ≡ self.old.temporary }
    {
        match self.places.pop_last() {
            Some(place) => place,
            None => unreachable!(),
        }
    }

    /// The reason of the last place, which was taken out, where another place of the present level is left.
    pub(crate) fn reason_of(&self, last: usize, trail: &Trail) -> Option<usize>
        requires assignment { IsAssignment trail.now }
        requires within { last < length trail.now.entries }
        requires below { All (λ place. place < last) self.now.places.keys }
        requires present { level_at trail.now.entries last ≡ trail.now.level }
        requires decision { IsOnlyDecision trail.now.level trail.now.entries }
        ensures reason { IfSome result (λ key. (entry_at trail.now.entries last).reason ≡ Some key) }
        ensures other { IfSome result (λ _. HasPlace trail.now.entries self.now.places.keys trail.now.level) }
        ensures alone { IfNone result (All (λ place. level_at trail.now.entries place < trail.now.level) self.now.places.keys) }
    {
        let next = *self.places.last()?;
        if trail.entry(next).level < trail.level() {
            return None;
        }
        trail.entry(last).reason
    }

    /// The nogood, with the literal of the last place first.
    pub(crate) fn learned(
        self,
        last: usize,
        resolved: Vec<u32>,
        alloc: Global,
        trail: &Trail,
    ) -> Result<Learned, OutOfMemory>
        requires last { last < length trail.now.entries }
        requires within { All (λ place. place < length trail.now.entries) self.places.keys }
        ensures read { IfOk result (IsReadOff trail.now.entries self.places.keys last self.temporary) }
        ensures resolved { IfOk result (λ r. r.resolved ≡ resolved.items) }
    {
        let back = match self.places.last() {
            Some(place) => trail.entry(*place).level,
            None => 0,
        };
        let mut lits = Vec::with_capacity(alloc, self.places.len() + 1)?;
        lits.push(trail.at(last))?;
        for place in self.places.iter().rev() {
            lits.push(trail.at(*place))?;
        }
        Ok(Learned {
            lits: Seq::from_vec(lits),
            back,
            temporary: self.temporary,
            resolved: Seq::from_vec(resolved),
        })
    }
}

fn is_temporary(kind: Kind) -> bool
    ensures { result ≡ is_temporary_kind (Some kind) }
{
    match kind {
        Kind::Temporary => true,
        Kind::Base | Kind::Kept | Kind::Reason => false,
    }
}

/// Adds the places of those literals that lie below a place of the trail, and not among the fixed ones.
fn mark_lits(
    places: &mut BTreeSet<usize, Global>,
    lits: &[Lit],
    fixed: usize,
    below: usize,
    trail: &Trail,
) -> Result<(), OutOfMemory>
    requires room { All (λ lit. lit.var < trail.now.room) lits.now }
    requires assigned { All (λ lit. IsSome (entry_of trail.now.entries lit.var)) lits.now }
    ensures { OnOk result (places.new.keys ≡ marked trail.now.entries fixed below places.old.keys lits.now) }
{
    for lit in lits {
        let place = trail.place_of(lit.var);
        if fixed <= place && place < below {
            places.insert(place)?;
        }
    }
    Ok(())
}
