// Which atoms depend on which by rules, both ways.
ghost use Rattle.std.specs.Prelude.{◌≡◌, ◌++◌, [], List, Any, Contains, OnOk, Some};
ghost use Rattle.ms_join.specs.declared.aggregate.GroundElement.{GroundElement};
ghost use Rattle.ms_join.specs.declared.aggregate.SignedAgg.{SignedAgg};
ghost use Rattle.ms_join.specs.declared.ground_rule.GroundRule.{GroundRule};
ghost use Rattle.ms_cone.specs.Dependencies.{Adds, Keeps, Needs, NeedsInElement, NeedsInSigned};

use crate::links::Links;
use ms_base::atom_id::AtomId;
use ms_base::memory::OutOfMemory;
use ms_join::aggregate::{GroundElement, SignedAgg};
use ms_join::ground_rule::GroundRule;
use std::alloc::Global;
use std::marker::Model;

/// Which atoms depend on which by the rules so far. Contracts see the links of both directions.
#[derive(Drop)]
pub struct Dependencies {
    /// From each head to the positive atoms of its rules.
    pub(crate) needs: Links,
    /// From each positive atom to the heads of its rules.
    pub(crate) uses: Links,
}

impl Model for Dependencies {
    ghost use Rattle.ms_cone.specs.Dependencies.{Linked};

    ghost Value = { Linked };

    ghost view = { λ d. record { needs = d.needs; uses = d.uses } };
}

impl Dependencies {
    /// Those of no rules, which takes no memory.
    pub fn new(alloc: Global) -> Dependencies
        ensures { Keeps result [] }
    {
        Dependencies {
            needs: Links::new(alloc),
            uses: Links::new(alloc),
        }
    }

    /// Those of more rules. After an error it keeps some of them.
    pub fn add(&mut self, rules: &[GroundRule]) -> Result<(), OutOfMemory>
        ensures { OnOk result ((before : List GroundRule) → Keeps self.old before → Keeps self.new (before ++ rules.now)) }
    {
        for rule in rules {
            self.add_rule(rule)?;
        }
        Ok(())
    }

    fn add_rule(&mut self, rule: &GroundRule) -> Result<(), OutOfMemory>
        ensures { OnOk result (Adds self.old self.new (λ a b. (rule.now.head ≡ Some a) × Needs rule.now b)) }
    {
        let Some(head) = rule.head else {
            return Ok(());
        };
        self.add_atoms(head, rule.pos.as_slice())?;
        self.add_aggregates(head, rule.aggs.as_slice())?;
        Ok(())
    }

    fn add_aggregates(&mut self, head: AtomId, aggs: &[SignedAgg]) -> Result<(), OutOfMemory>
        ensures { OnOk result (Adds self.old self.new (λ a b. (a ≡ head) × Any (NeedsInSigned b) aggs.now)) }
    {
        for signed in aggs {
            self.add_elements(head, signed.agg.elements.as_slice())?;
        }
        Ok(())
    }

    fn add_elements(&mut self, head: AtomId, elements: &[GroundElement]) -> Result<(), OutOfMemory>
        ensures { OnOk result (Adds self.old self.new (λ a b. (a ≡ head) × Any (NeedsInElement b) elements.now)) }
    {
        for element in elements {
            self.add_atoms(head, element.pos.as_slice())?;
        }
        Ok(())
    }

    fn add_atoms(&mut self, head: AtomId, atoms: &[AtomId]) -> Result<(), OutOfMemory>
        ensures { OnOk result (Adds self.old self.new (λ a b. (a ≡ head) × Contains atoms.now b)) }
    {
        for atom in atoms {
            self.add_one(head, *atom)?;
        }
        Ok(())
    }

    fn add_one(&mut self, head: AtomId, atom: AtomId) -> Result<(), OutOfMemory>
        ensures { OnOk result (Adds self.old self.new (λ a b. (a ≡ head) × (b ≡ atom))) }
    {
        self.needs.add(head, atom)?;
        self.uses.add(atom, head)?;
        Ok(())
    }
}
