// The bodies of rules without aggregates, where equal ones are one.
ghost use Rattle.std.specs.Prelude.{◌≡◌, ◌+◌, List, [], ◌∷◌, ◌++◌, length, OnOk, IfOk};
ghost use Rattle.ms_join.specs.declared.ground_rule.GroundRule.{GroundRule};
ghost use Rattle.ms_join.specs.Things.{body_of};
ghost use Rattle.ms_module.specs.Bodies.{shown, AddsBodies, ArePlain, CountsBodies, AreMissing};

use indexmap::IndexSet;
use ms_base::atom_id::AtomId;
use ms_base::memory::OutOfMemory;
use ms_join::ground_rule::GroundRule;
use std::alloc::Global;
use std::marker::Model;

/// The body of a rule: its positive and its negated atoms.
#[derive(Drop, PartialEq, Eq, Hash)]
pub(crate) struct BodyKey {
    pos: Vec<u32>,
    neg: Vec<u32>,
}

/// Bodies, each once. Contracts see their list.
#[derive(Drop)]
pub(crate) struct Bodies {
    keys: IndexSet<BodyKey>,
}

impl Model for Bodies {
    ghost use Rattle.std.specs.Prelude.{List, map};
    ghost use Rattle.ms_join.specs.Things.{Body};
    ghost use Rattle.ms_module.specs.Bodies.{shown};

    ghost Value = { List Body };

    ghost view = { λ b. map shown b.keys.keys };
}

impl Bodies {
    pub fn new(alloc: Global) -> Bodies
        ensures { result ≡ [] }
    {
        Bodies {
            keys: IndexSet::new(alloc),
        }
    }

    /// Adds the bodies of rules. After an error some of them may be there.
    pub fn add(&mut self, alloc: Global, rules: &[GroundRule]) -> Result<(), OutOfMemory>
        requires { ArePlain rules.now }
        ensures { OnOk result (AddsBodies self.old rules.now self.new) }
    {
        for rule in rules {
            self.add_one(alloc, rule)?;
        }
        Ok(())
    }

    fn add_one(&mut self, alloc: Global, rule: &GroundRule) -> Result<(), OutOfMemory>
        requires { rule.now.aggs ≡ [] }
        ensures { OnOk result (AddsBodies self.old (rule.now ∷ []) self.new) }
    {
        self.keys.insert(key_of(alloc, rule)?)?;
        Ok(())
    }

    /// How many bodies there are together with those of the rules.
    pub fn count_with(&self, alloc: Global, rules: &[GroundRule]) -> Result<usize, OutOfMemory>
        requires { ArePlain rules.now }
        ensures { IfOk result (CountsBodies self.now rules.now) }
    {
        let mut missing = Bodies::new(alloc);
        for rule in rules {
            self.add_missing(alloc, rule, &mut missing)?;
        }
        Ok(self.keys.len() + missing.keys.len())
    }

    /// Adds the body of a rule to the missing ones where it is missing here.
    fn add_missing(
        &self,
        alloc: Global,
        rule: &GroundRule,
        missing: &mut Bodies,
    ) -> Result<(), OutOfMemory>
        requires { rule.now.aggs ≡ [] }
        ensures { OnOk result ((before : List GroundRule) → AreMissing self.now before missing.old → AreMissing self.now (before ++ rule.now ∷ []) missing.new) }
    {
        let key = key_of(alloc, rule)?;
        if !self.keys.contains(&key) {
            missing.keys.insert(key)?;
        }
        Ok(())
    }
}

fn key_of(alloc: Global, rule: &GroundRule) -> Result<BodyKey, OutOfMemory>
    requires { rule.now.aggs ≡ [] }
    ensures { IfOk result (λ key. shown key ≡ body_of rule.now) }
{
    Ok(BodyKey {
        pos: numbers(alloc, rule.pos.as_slice())?,
        neg: numbers(alloc, rule.neg.as_slice())?,
    })
}

fn numbers(alloc: Global, atoms: &[AtomId]) -> Result<Vec<u32>, OutOfMemory>
    ensures { IfOk result (λ v. v.items ≡ atoms.now) }
{
    let numbers = atoms.iter().map(|a| a.0).collect(alloc)?;
    Ok(numbers)
}
