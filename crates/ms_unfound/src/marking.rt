// Marks for the atoms of a part that have support: those in the least set that has the head of each rule whose
// body isn't false and whose inner atoms are in the set.
ghost use Rattle.std.specs.Prelude.{◌≡◌, ◌<◌, ◌++◌, ◌∷◌, [], true, All, IfOk, IsTrue, MatchBool, MatchOption, OnOk, length, slice_index, slice_set};
ghost use Rattle.ms_join.specs.Sets.{has_all};
ghost use Rattle.ms_lits.specs.Assignment.{value_in};
ghost use Rattle.ms_unfound.specs.Marks.{IsLeast, IsStill, flag_at, may_hold};
ghost use Rattle.ms_unfound.specs.Parts.{IsPart};
ghost use Rattle.ms_unfound.specs.Waiting.{AreCared, AreMarkedFrom, GoesOn, IsCaredAt, IsFresh, IsListed, IsUnderWay, IsUnmarkedAt, work_left};

use crate::part::{Part, Places};
use ms_base::memory::OutOfMemory;
use ms_base::seq::Seq;
use ms_lits::Trail;
use std::alloc::Global;
use std::mem;

/// The marks so far. A support waits at one inner atom without a mark, and goes on to the next once that has one,
/// so each of its inner atoms is passed once.
#[derive(Drop)]
struct Marking {
    marked: Seq<bool>,
    /// For each atom the supports that wait for its mark.
    waiting: Vec<Places>,
    /// For each support where the inner atom stands at which it waited last.
    looked: Places,
    /// The marked atoms whose waiting supports haven't been looked at since.
    todo: Places,
}

/// Whether a place is marked. One past the end isn't.
pub(crate) fn is_marked(marked: &[bool], place: usize) -> bool
    ensures { result ≡ flag_at marked.now place }
{
    marked.get(place).copied().unwrap_or(false)
}

/// Whether a variable isn't false.
pub(crate) fn may_hold(trail: &Trail, var: u32) -> bool
    requires { var < trail.now.room }
    ensures { result ≡ may_hold (value_in trail.now.entries var) }
{
    match trail.value(var) {
        Some(truth) => truth,
        None => true,
    }
}

/// Where the first of the places that isn't marked stands, from there on.
fn unmarked_from(places: &[usize], marked: &[bool], from: usize) -> Option<usize>
    ensures { MatchOption result (AreMarkedFrom marked.now places.now from) (IsUnmarkedAt marked.now places.now) }
{
    for at in from..places.len() {
        if !is_marked(marked, places[at]) {
            return Some(at);
        }
    }
    None
}

/// Where a place that isn't marked stands, or none where all are. The second look comes only once for a list: when
/// all that stood before were found marked.
fn awaited(places: &[usize], marked: &[bool], from: usize) -> Option<usize>
    ensures { MatchOption result (IsTrue (has_all (flag_at marked.now) places.now)) (IsUnmarkedAt marked.now places.now) }
{
    match unmarked_from(places, marked, from) {
        Some(at) => Some(at),
        None => unmarked_from(places, marked, 0),
    }
}

impl Marking {
    /// No mark, and nothing looked at.
    fn new(alloc: Global, atoms: usize, supports: usize) -> Result<Marking, OutOfMemory>
        ensures { IfOk result (IsFresh atoms supports) }
    {
        Ok(Marking {
            marked: Seq::from_vec(vec![in alloc; false; atoms]?),
            waiting: empty_lists(alloc, atoms)?,
            looked: Seq::from_vec(vec![in alloc; 0; supports]?),
            todo: Seq::new(alloc),
        })
    }

    /// Looks at a support: marks its head where it gives it, and else lets it wait.
    fn look(&mut self, part: &Part, trail: &Trail, place: usize) -> Result<(), OutOfMemory>
        requires part { IsPart trail.now.room part.now }
        requires under_way { IsUnderWay trail.now.entries part.now self.old }
        ensures goes_on { OnOk result (GoesOn trail.now.entries part.now self.old self.new) }
        ensures cared { OnOk result (IsCaredAt trail.now.entries part.now.supports self.new place) }
    {
        let Some(support) = part.supports.get(place) else {
            return Ok(());
        };
        if !may_hold(trail, support.body) || is_marked(self.marked.as_slice(), support.head) {
            return Ok(());
        }
        let inner = support.inner.as_slice();
        let from = self.looked.as_slice()[place];
        match awaited(inner, self.marked.as_slice(), from) {
            Some(at) => self.wait(place, inner, at),
            None => self.mark(support.head),
        }
    }

    /// The support waits for the inner atom that stands there.
    fn wait(&mut self, place: usize, inner: &[usize], at: usize) -> Result<(), OutOfMemory>
        requires place { place < length self.old.looked }
        requires at { at < length inner.now }
        requires inner { All (λ i. i < length self.old.waiting.items) inner.now }
        ensures { OnOk result (IsListed self.old place (slice_index inner.now at) self.new) }
    {
        self.looked.set(place, at);
        self.waiting[inner[at]].push(place)?;
        Ok(())
    }

    fn mark(&mut self, place: usize) -> Result<(), OutOfMemory>
        requires { place < length self.old.marked }
        ensures { OnOk result (self.new ≡ record self.old { marked = slice_set self.old.marked place true; todo = self.old.todo ++ place ∷ [] }) }
    {
        self.todo.push(place)?;
        self.marked.set(place, true);
        Ok(())
    }

    /// Looks at each support.
    fn look_at_all(&mut self, part: &Part, trail: &Trail) -> Result<(), OutOfMemory>
        requires part { IsPart trail.now.room part.now }
        requires under_way { IsUnderWay trail.now.entries part.now self.old }
        ensures under_way { OnOk result (IsUnderWay trail.now.entries part.now self.new) }
        ensures cared { OnOk result (AreCared trail.now.entries part.now.supports self.new) }
    {
        for place in 0..part.supports.len() {
            self.look(part, trail, place)?;
        }
        Ok(())
    }

    /// Looks again at what waits for a marked atom, and says whether there was one.
    fn step(&mut self, alloc: Global, part: &Part, trail: &Trail) -> Result<bool, OutOfMemory>
        requires part { IsPart trail.now.room part.now }
        requires under_way { IsUnderWay trail.now.entries part.now self.old }
        requires cared { AreCared trail.now.entries part.now.supports self.old }
        ensures under_way { OnOk result (IsUnderWay trail.now.entries part.now self.new) }
        ensures cared { OnOk result (AreCared trail.now.entries part.now.supports self.new) }
        ensures progress { IfOk result (λ more. MatchBool more
            (work_left self.new < work_left self.old)
            (IsStill trail.now.entries part.now.supports (flag_at self.new.marked))) }
    {
        let Some(place) = self.todo.pop() else {
            return Ok(false);
        };
        let waiting = mem::replace(&mut self.waiting[place], Seq::new(alloc));
        for support in waiting.as_slice() {
            self.look(part, trail, *support)?;
        }
        Ok(true)
    }

    /// Goes on until nothing is to be looked at.
    fn finish(&mut self, alloc: Global, part: &Part, trail: &Trail) -> Result<(), OutOfMemory>
        requires part { IsPart trail.now.room part.now }
        requires under_way { IsUnderWay trail.now.entries part.now self.old }
        requires cared { AreCared trail.now.entries part.now.supports self.old }
        ensures { OnOk result (IsLeast trail.now.entries part.now.supports (flag_at self.new.marked)) }
    {
        while self.step(alloc, part, trail)? {}
        Ok(())
    }
}

/// So many empty lists.
fn empty_lists(alloc: Global, count: usize) -> Result<Vec<Places>, OutOfMemory>
    ensures { IfOk result (λ lists. length lists.items ≡ count) }
{
    let mut lists = Vec::with_capacity(alloc, count)?;
    for _ in 0..count {
        lists.push(Seq::new(alloc))?;
    }
    Ok(lists)
}

/// Marks for the places of a part whose atoms have support.
pub(crate) fn supported(alloc: Global, part: &Part, trail: &Trail) -> Result<Vec<bool>, OutOfMemory>
    requires { IsPart trail.now.room part.now }
    ensures { IfOk result (λ marked. IsLeast trail.now.entries part.now.supports (flag_at marked.items)) }
{
    let mut marking = Marking::new(alloc, part.atoms.len(), part.supports.len())?;
    marking.look_at_all(part, trail)?;
    marking.finish(alloc, part, trail)?;
    Ok(marking.marked.into_vec())
}
