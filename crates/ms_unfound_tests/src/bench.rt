// A search over the nogoods of a module.
ghost use Rattle.std.specs.Prelude.{◌≡◌, ◌<◌, ◌≤◌, All, IfOk, IsTrue, List, OnOk};
ghost use Rattle.ms_lits.specs.declared.lit.Lit.{Lit};
ghost use Rattle.ms_nogood.specs.Theories.{AreRising};

use ms_base::seq::Seq;
use ms_lits::{Lit, Lits, Numbers};
use ms_nogood::{Kind, Nogoods, OutOfMemory, Theory};
use ms_search::{Ask, Run, Search};
use std::alloc::Global;
use std::marker::Model;

/// A search over a store, all of whose variables are atoms.
#[derive(Drop)]
pub(crate) struct Bench {
    alloc: Global,
    vars: u32,
    atoms: Numbers,
    search: Search,
    store: Nogoods,
}

impl Model for Bench {
    ghost use Rattle.std.specs.Prelude.{ℕ};
    ghost use Rattle.ms_unfound_tests.specs.Benches.{IsBench};

    ghost Value = { ℕ };

    ghost view = { λ b. b.vars };

    ghost invariant = { λ b. IsBench b.vars b.atoms b.search b.store };
}

impl Bench {
    pub(crate) fn new(alloc: Global, vars: u32) -> Result<Bench, OutOfMemory>
        ensures { IfOk result (λ bench. bench ≡ vars) }
    {
        let mut atoms = Vec::new(alloc);
        for var in 0..vars {
            atoms.push(var)?;
        }
        Ok(Bench {
            alloc,
            vars,
            atoms: Seq::from_vec(atoms),
            search: Search::new(alloc),
            store: Nogoods::new(alloc),
        })
    }

    /// Adds the nogoods of a store that are fresh.
    pub(crate) fn add_all(&mut self, store: &Nogoods) -> Result<(), OutOfMemory>
        ensures { self.new ≡ self.old }
    {
        for key in store.fresh() {
            if store.contains(*key) {
                self.add(store.get(*key))?;
            }
        }
        Ok(())
    }

    /// Adds a nogood of the program, or does nothing where its literals aren't in order.
    fn add(&mut self, lits: &[Lit]) -> Result<(), OutOfMemory>
        ensures { self.new ≡ self.old }
    {
        if !in_order(lits, self.vars) {
            return Ok(());
        }
        self.store.add(lits, Kind::Base)?;
        Ok(())
    }

    /// Runs the search, for at least one answer.
    pub(crate) fn run<T: Theory>(
        mut self,
        theory: &mut T,
        count: u64,
        assume: &[Lit],
    ) -> Result<Run, OutOfMemory>
        requires vars { T.vars theory.old ≤ self }
        requires leans_on { (nogood : List Lit) → ¬ T.leans_on theory.old nogood }
    {
        let ask = Ask {
            vars: self.vars,
            count: count.max(1),
            limit: 1000,
            assume: self.demanded(assume)?,
            impossible: false,
        };
        self.search.run(&mut self.store, theory, &ask, &self.atoms)
    }

    /// Those literals that are of its variables.
    fn demanded(&self, assume: &[Lit]) -> Result<Lits, OutOfMemory>
        ensures { IfOk result (λ lits. All (λ lit. lit.var < self.now) lits) }
    {
        let mut lits = Vec::new(self.alloc);
        for lit in assume {
            if lit.var < self.vars {
                lits.push(*lit)?;
            }
        }
        Ok(Seq::from_vec(lits))
    }
}

/// Whether the variables rise, and are below this number.
fn in_order(lits: &[Lit], vars: u32) -> bool
    ensures rising { IsTrue result → AreRising lits.now }
    ensures within { IsTrue result → All (λ lit. lit.var < vars) lits.now }
{
    let mut least = 0;
    for lit in lits {
        if lit.var < least || lit.var >= vars {
            return false;
        }
        least = lit.var + 1;
    }
    true
}
