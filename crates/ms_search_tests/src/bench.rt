// A search over a store made by hand.
ghost use Rattle.std.specs.Prelude.{◌≡◌, ◌<◌, ◌≤◌, ◌⊎◌, ◌∷◌, [], All, IfNone, IfOk, IfSome, IsTrue, List, OnOk, true};
ghost use Rattle.ms_lits.specs.declared.lit.Lit.{Lit};
ghost use Rattle.ms_nogood.specs.Theories.{AreRising, HasOpen};
ghost use Rattle.ms_lits.specs.Assignment.{IsWholeIn};
ghost use Rattle.ms_search_tests.specs.Forbids.{AreFalse, IsForbidden, accepts_false};

use ms_base::seq::Seq;
use ms_lits::{Lit, Lits, Note, Numbers, Trail};
use ms_nogood::{Kind, Nogoods, OutOfMemory, Theory, Verdict};
use ms_search::{Ask, Run, Search};
use std::alloc::Global;
use std::marker::Model;

/// A search over a store, all of whose variables are atoms.
#[derive(Drop)]
pub(crate) struct Bench {
    alloc: Global,
    vars: u32,
    atoms: Numbers,
    search: Search,
    store: Nogoods,
}

impl Model for Bench {
    ghost use Rattle.std.specs.Prelude.{ℕ};
    ghost use Rattle.ms_search_tests.specs.Benches.{IsBench};

    ghost Value = { ℕ };

    ghost view = { λ b. b.vars };

    ghost invariant = { λ b. IsBench b.vars b.atoms b.search b.store };
}

impl Bench {
    pub(crate) fn new(alloc: Global, vars: u32) -> Result<Bench, OutOfMemory>
        ensures { IfOk result (λ bench. bench ≡ vars) }
    {
        let mut atoms = Vec::new(alloc);
        for var in 0..vars {
            atoms.push(var)?;
        }
        Ok(Bench {
            alloc,
            vars,
            atoms: Seq::from_vec(atoms),
            search: Search::new(alloc),
            store: Nogoods::new(alloc),
        })
    }

    /// Adds a nogood of the program, or one that is kept. It does nothing where its literals aren't in order.
    pub(crate) fn add(&mut self, lits: &[Lit], kept: bool) -> Result<(), OutOfMemory>
        ensures { self.new ≡ self.old }
    {
        if !in_order(lits, self.vars) {
            return Ok(());
        }
        if kept {
            self.store.add(lits, Kind::Kept)?;
        } else {
            self.store.add(lits, Kind::Base)?;
        }
        Ok(())
    }

    /// Whether a key has a nogood.
    pub(crate) fn has(&self, key: usize) -> bool {
        self.store.contains(key)
    }

    /// Runs the search, for at least one answer.
    pub(crate) fn run<T: Theory>(
        mut self,
        theory: &mut T,
        count: u64,
        limit: u64,
        assume: &[Lit],
        impossible: bool,
    ) -> Result<(Bench, Run), OutOfMemory>
        requires vars { T.vars theory.old ≤ self }
        requires leans_on { (nogood : List Lit) → ¬ T.leans_on theory.old nogood }
        ensures vars { OnOk result (T.vars theory.new ≡ T.vars theory.old) }
        ensures bench { IfOk result (λ found. found.0 ≡ self) }
    {
        let ask = Ask {
            vars: self.vars,
            count: count.max(1),
            limit,
            assume: self.demanded(assume)?,
            impossible,
        };
        let run = self.search.run(&mut self.store, theory, &ask, &self.atoms)?;
        Ok((self, run))
    }

    /// Those literals that are of its variables.
    fn demanded(&self, assume: &[Lit]) -> Result<Lits, OutOfMemory>
        ensures { IfOk result (λ lits. All (λ lit. lit.var < self.now) lits) }
    {
        let mut lits = Vec::new(self.alloc);
        for lit in assume {
            if lit.var < self.vars {
                lits.push(*lit)?;
            }
        }
        Ok(Seq::from_vec(lits))
    }
}

/// Whether the variables rise, and are below this number.
fn in_order(lits: &[Lit], vars: u32) -> bool
    ensures rising { IsTrue result → AreRising lits.now }
    ensures within { IsTrue result → All (λ lit. lit.var < vars) lits.now }
{
    let mut least = 0;
    for lit in lits {
        if lit.var < least || lit.var >= vars {
            return false;
        }
        least = lit.var + 1;
    }
    true
}

/// How many lines of each kind a run has told: those of a theory, kept ones, temporary ones and answers.
pub(crate) fn lines(run: &Run) -> [u64; 4] {
    let mut theory: u64 = 0;
    let mut kept: u64 = 0;
    let mut temporary: u64 = 0;
    let mut answers: u64 = 0;
    for note in run.notes.as_slice() {
        match note {
            Note::Theory(_) => theory = theory.saturating_add(1),
            Note::Kept(_) => kept = kept.saturating_add(1),
            Note::Temporary(_) => temporary = temporary.saturating_add(1),
            Note::Answer(_) => answers = answers.saturating_add(1),
            _ => (),
        }
    }
    [theory, kept, temporary, answers]
}

/// It forbids each of its variables to be true, and keeps the greatest level that it was shown.
#[derive(Drop)]
pub(crate) struct AllFalse {
    pub(crate) alloc: Global,
    pub(crate) vars: u32,
    pub(crate) greatest: u32,
}

impl AllFalse {
    /// The first true variable or, where none is true, the first unassigned one.
    fn first(&self, trail: &Trail) -> Option<u32>
        requires { self.now.vars ≤ trail.now.room }
        ensures within { IfSome result (λ var. var < self.now.vars) }
        ensures found { IfSome result (λ var. IsWholeIn trail.now.entries (record { var = var; truth = true } ∷ []) ⊎ HasOpen trail.now.entries (record { var = var; truth = true } ∷ [])) }
        ensures none { IfNone result (AreFalse self.now.vars trail.now.entries) }
    {
        for var in 0..self.vars {
            if trail.value(var) == Some(true) {
                return Some(var);
            }
        }
        for var in 0..self.vars {
            if trail.value(var).is_none() {
                return Some(var);
            }
        }
        None
    }
}

impl Theory for AllFalse {
    ghost vars = { λ t. t.vars };

    ghost leans_on = { λ _ _. ⊥ };

    ghost Settled = { λ t entries. AreFalse t.vars entries };

    ghost Gives = { λ t nogood. IsForbidden t.vars nogood };

    ghost accepted = { λ t entries total nogood is_total settled _ given. accepts_false t.vars entries total nogood is_total settled given };

    fn check(&mut self, trail: &Trail) -> Result<Verdict, OutOfMemory> {
        self.greatest = self.greatest.max(trail.level());
        match self.first(trail) {
            Some(var) => Ok(Verdict::Nogood(Seq::from_vec(vec![in self.alloc;
                Lit { var, truth: true, },
            ]?))),
            None => Ok(Verdict::Quiet),
        }
    }

    fn back_to(&mut self, _len: usize) {}
}
