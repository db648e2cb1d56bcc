// A run of the search from its beginning to its end.
ghost use Rattle.std.specs.Prelude.{ℕ, ◌≡◌, ◌<◌, ◌≤◌, ◌^◌, [], All, IfOk, List, OnOk, false, max, true};
ghost use Rattle.ms_lits.specs.declared.lit.Lit.{Lit};
ghost use Rattle.ms_nogood.specs.Propagation.{IsWithin};
ghost use Rattle.ms_nogood.specs.Store.{AreKept, EndsSolve, Store};
ghost use Rattle.ms_search.specs.Engines.{IsAskOf, IsReady, point_of};
ghost use Rattle.ms_search.specs.Points.{IsOver, IsPoint, IsWired};
ghost use Rattle.ms_search.specs.Posed.{IsPosed, Lists};
ghost use Rattle.ms_search.specs.Problems.{AreLasting, AreUnique, IsBase, IsTarget, IsTheoryOf, MeansTheSame, problem_of};
ghost use Rattle.ms_search.specs.Runs.{AreAttached, Begins, IsRun, Leaves, empty_trail};

use crate::ask::{Ask, Run};
use crate::choice::Choice;
use crate::engine::Engine;
use crate::log::Log;
use crate::steps::Target;
use crate::wiring::MOST_KEPT;
use ms_lits::{Ending, Numbers, OutOfMemory, Trail};
use ms_nogood::{Nogoods, Propagate, Theory};
use ms_watch::Watches;
use std::alloc::Global;
use std::marker::{Brand, Model};

/// A search by a way of propagating, which lives on with a store.
#[derive(Drop)]
pub struct SearchBy<P: Propagate + Drop> {
    engine: Engine<P>,
}

impl<P: Propagate + Drop> Model for SearchBy<P> {
    ghost use Rattle.std.specs.Prelude.{◌≡◌, []};
    ghost use Rattle.ms_search.specs.Runs.{Resting};

    ghost Value = { Resting P };

    ghost view = { λ s. record { propagation = s.engine.propagation; room = s.engine.trail.room } };

    ghost invariant = { λ s. (s.engine.trail.entries ≡ []) × (s.engine.trail.level ≡ 0) × (s.engine.decisions.items ≡ []) };
}

/// The search by watched literals.
pub type Search = SearchBy<Watches>;

impl<P: Propagate + Drop> SearchBy<P> {
    /// A search to which nothing is attached.
    pub fn new(alloc: Global) -> Self
        ensures none { (key : ℕ) → P.attached result.propagation key ≡ false }
        ensures in_step { (store : Store) → P.InStep result.propagation store (empty_trail result.room) }
    {
        SearchBy {
            engine: Engine {
                alloc,
                trail: Trail::new(alloc),
                propagation: P::new(alloc),
                choice: Choice::new(alloc),
                decisions: Vec::new(alloc),
            },
        }
    }

    /// Lists answers, until as many are found as were asked for, there are no others, or as many nogoods were
    /// learned as the limit allows. An answer is the list of the true ones among `atoms`. The log says how it
    /// went. What was learned and is kept stays in the store, and of the kept nogoods of earlier runs the last
    /// 200,000 stay.
    pub fn run<T: Theory>(
        &mut self,
        store: &mut Nogoods,
        theory: &mut T,
        ask: &Ask,
        atoms: &Numbers,
    ) -> Result<Run, OutOfMemory>
        requires count { 1 ≤ ask.now.count }
        requires store { IsWithin store.old ask.now.vars }
        requires demanded { All (λ lit. lit.var < ask.now.vars) ask.now.assume }
        requires atoms { All (λ atom. atom < ask.now.vars) atoms.now }
        requires vars { T.vars theory.old ≤ ask.now.vars }
        requires lasting { AreLasting store.old }
        requires leans_on { (nogood : List Lit) → T.leans_on theory.old nogood → IsBase store.old nogood }
        requires attached { AreAttached (P.attached self.old.propagation) store.old }
        requires in_step { P.InStep self.old.propagation store.old (empty_trail self.old.room) }
        requires unique { AreUnique (problem_of (T.Gives theory.old) store.old ask.now atoms.now) }
        ensures run { IfOk result (IsRun (problem_of (T.Gives theory.old) store.old ask.now atoms.now)) }
        ensures lists { IfOk result (Lists (problem_of (T.Gives theory.old) store.old ask.now atoms.now)) }
        ensures leaves { IfOk result (λ run. Leaves (problem_of (T.Gives theory.old) store.old ask.now atoms.now) run.notes store.old store.new) }
        ensures within { OnOk result (IsWithin store.new ask.now.vars) }
        ensures lasting { OnOk result (AreLasting store.new) }
        ensures attached { OnOk result (AreAttached (P.attached self.new.propagation) store.new) }
        ensures in_step { OnOk result (P.InStep self.new.propagation store.new (empty_trail self.new.room)) }
        ensures seen { OnOk result (T.Seen theory.new ≡ []) }
        ensures means { OnOk result (MeansTheSame (T.vars theory.old) (T.vars theory.new) (T.leans_on theory.old) (T.leans_on theory.new) (T.Gives theory.old) (T.Gives theory.new) (T.Settled theory.old) (T.Settled theory.new)) }
    {
        let run = self
            .engine
            .solve::<Brand, T>(store, theory, ask, atoms.as_slice());
        self.engine.clear();
        run
    }
}

impl<P: Propagate + Drop> Engine<P> {
    /// A run from an empty trail, which it leaves empty unless there is no memory.
    fn solve<K: Target, T: Theory>(
        &mut self,
        store: &mut Nogoods,
        theory: &mut T,
        ask: &Ask,
        atoms: &[u32],
    ) -> Result<Run, OutOfMemory>
        requires empty { self.old.trail ≡ empty_trail self.old.trail.room }
        requires decisions { self.old.decisions.items ≡ [] }
        requires count { 1 ≤ ask.now.count }
        requires target { ask.now.impossible ≡ false → IsTarget K.problem }
        requires asked { IsAskOf K.problem ask.now atoms.now }
        requires posed { IsPosed K.problem (T.Gives theory.old) store.old }
        requires theory { IsTheoryOf K.problem (T.vars theory.old) (T.leans_on theory.old) (T.Gives theory.old) }
        requires store { IsWithin store.old ask.now.vars }
        requires lasting { AreLasting store.old }
        requires attached { AreAttached (P.attached self.old.propagation) store.old }
        requires in_step { P.InStep self.old.propagation store.old self.old.trail }
        ensures run { IfOk result (IsRun K.problem) }
        ensures lists { IfOk result (Lists K.problem) }
        ensures leaves { IfOk result (λ run. Leaves K.problem run.notes store.old store.new) }
        ensures within { OnOk result (IsWithin store.new ask.now.vars) }
        ensures lasting { OnOk result (AreLasting store.new) }
        ensures attached { OnOk result (AreAttached (P.attached self.new.propagation) store.new) }
        ensures in_step { OnOk result (P.InStep self.new.propagation store.new (empty_trail self.new.trail.room)) }
        ensures seen { OnOk result (T.Seen theory.new ≡ []) }
        ensures means { OnOk result (MeansTheSame (T.vars theory.old) (T.vars theory.new) (T.leans_on theory.old) (T.leans_on theory.new) (T.Gives theory.old) (T.Gives theory.new) (T.Settled theory.old) (T.Settled theory.new)) }
    {
        theory.back_to(0);
        self.begin(store, ask.vars)?;
        let mut log = Log::new(self.alloc);
        let ending = self.list::<Brand, T>(store, theory, ask, atoms, &mut log)?;
        self.finish(store, theory);
        log.told(ending, ask)
    }

    /// Drops the oldest kept nogoods where they are too many, and attaches what isn't attached.
    fn begin(&mut self, store: &mut Nogoods, vars: u32) -> Result<(), OutOfMemory>
        requires empty { self.old.trail ≡ empty_trail self.old.trail.room }
        requires attached { AreAttached (P.attached self.old.propagation) store.old }
        requires in_step { P.InStep self.old.propagation store.old self.old.trail }
        ensures trail { OnOk result (self.new.trail ≡ empty_trail (max self.old.trail.room vars)) }
        ensures fits { OnOk result (self.new.trail.room < 2 ^ 32) }
        ensures decisions { OnOk result (self.new.decisions ≡ self.old.decisions) }
        ensures begins { OnOk result (Begins store.old store.new) }
        ensures order { OnOk result (AreKept store.old.slots store.old.kept) }
        ensures wired { OnOk result (IsWired (P.attached self.new.propagation) store.new) }
        ensures in_step { OnOk result (P.InStep self.new.propagation store.new self.new.trail) }
    {
        self.detach_trimmed(store);
        store.trim(MOST_KEPT);
        self.attach_fresh(store)?;
        store.forget_fresh();
        self.trail.grow(vars)?;
        let _len = self.trail.len();
        self.choice.grow(vars)?;
        Ok(())
    }

    /// Lists answers until the search is over. There are none where something is demanded that no answer has.
    fn list<K: Target, T: Theory>(
        &mut self,
        store: &mut Nogoods,
        theory: &mut T,
        ask: &Ask,
        atoms: &[u32],
        log: &mut Log,
    ) -> Result<Ending, OutOfMemory>
        requires target { ask.now.impossible ≡ false → IsTarget K.problem }
        requires asked { IsAskOf K.problem ask.now atoms.now }
        requires point { IsPoint K.problem (point_of self.old store.old log.old) }
        requires ready { IsReady K.problem K.begun store.old self.old.trail.entries (P.attached self.old.propagation) (P.InStep self.old.propagation store.old self.old.trail) (T.Seen theory.old) (T.vars theory.old) (T.leans_on theory.old) (T.Gives theory.old) }
        ensures over { IfOk result (IsOver K.problem (point_of self.new store.new log.new)) }
        ensures idle { IfOk result (λ ending. ask.now.impossible ≡ true → (ending ≡ Ending.Complete) × (log.new ≡ log.old)) }
        ensures ready { OnOk result (IsReady K.problem K.begun store.new self.new.trail.entries (P.attached self.new.propagation) (P.InStep self.new.propagation store.new self.new.trail) (T.Seen theory.new) (T.vars theory.new) (T.leans_on theory.new) (T.Gives theory.new)) }
        ensures means { OnOk result (MeansTheSame (T.vars theory.old) (T.vars theory.new) (T.leans_on theory.old) (T.leans_on theory.new) (T.Gives theory.old) (T.Gives theory.new) (T.Settled theory.old) (T.Settled theory.new)) }
    {
        if ask.impossible {
            return Ok(Ending::Complete);
        }
        self.search::<K, T>(store, theory, ask, atoms, log)
    }

    /// Goes on until the search is over.
    fn search<K: Target, T: Theory>(
        &mut self,
        store: &mut Nogoods,
        theory: &mut T,
        ask: &Ask,
        atoms: &[u32],
        log: &mut Log,
    ) -> Result<Ending, OutOfMemory>
        requires target { IsTarget K.problem }
        requires asked { IsAskOf K.problem ask.now atoms.now }
        requires point { IsPoint K.problem (point_of self.old store.old log.old) }
        requires ready { IsReady K.problem K.begun store.old self.old.trail.entries (P.attached self.old.propagation) (P.InStep self.old.propagation store.old self.old.trail) (T.Seen theory.old) (T.vars theory.old) (T.leans_on theory.old) (T.Gives theory.old) }
        ensures over { IfOk result (IsOver K.problem (point_of self.new store.new log.new)) }
        ensures ready { OnOk result (IsReady K.problem K.begun store.new self.new.trail.entries (P.attached self.new.propagation) (P.InStep self.new.propagation store.new self.new.trail) (T.Seen theory.new) (T.vars theory.new) (T.leans_on theory.new) (T.Gives theory.new)) }
        ensures means { OnOk result (MeansTheSame (T.vars theory.old) (T.vars theory.new) (T.leans_on theory.old) (T.leans_on theory.new) (T.Gives theory.old) (T.Gives theory.new) (T.Settled theory.old) (T.Settled theory.new)) }
    {
        loop {
            if let Some(ending) = self.round::<K, T>(store, theory, ask, atoms, log)? {
                return Ok(ending);
            }
        }
    }

    /// Drops what lasts for one solve, and empties the trail.
    fn finish<T: Theory>(&mut self, store: &mut Nogoods, theory: &mut T)
        requires wired { IsWired (P.attached self.old.propagation) store.old }
        requires in_step { P.InStep self.old.propagation store.old self.old.trail }
        ensures trail { self.new.trail ≡ empty_trail self.old.trail.room }
        ensures decisions { self.new.decisions.items ≡ [] }
        ensures ends { EndsSolve store.old store.new }
        ensures wired { IsWired (P.attached self.new.propagation) store.new }
        ensures in_step { P.InStep self.new.propagation store.new self.new.trail }
        ensures seen { T.Seen theory.new ≡ [] }
        ensures means { MeansTheSame (T.vars theory.old) (T.vars theory.new) (T.leans_on theory.old) (T.leans_on theory.new) (T.Gives theory.old) (T.Gives theory.new) (T.Settled theory.old) (T.Settled theory.new) }
    {
        self.detach_passing(store);
        store.end_solve();
        self.clear();
        self.propagation.back_to(0);
        theory.back_to(0);
    }

    /// Empties the trail.
    fn clear(&mut self)
        ensures trail { self.new.trail ≡ empty_trail self.old.trail.room }
        ensures decisions { self.new.decisions.items ≡ [] }
        ensures propagation { self.new.propagation ≡ self.old.propagation }
    {
        self.trail.clear();
        self.decisions.clear();
    }
}
