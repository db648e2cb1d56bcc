ghost use Rattle.std.specs.Prelude.{◌≡◌, IfOk};

use crate::propagation::Propagation;
use ms_base::memory::OutOfMemory;
use std::alloc::Global;
use std::marker::Model;

/// Room for the test of sets over a base by so many rules. Contracts see it as the two numbers.
#[derive(Debug, Drop)]
pub struct RuleScratch {
    atoms: u32,
    pub(crate) in_set: Vec<bool>,
    pub(crate) propagation: Propagation,
}

impl Model for RuleScratch {
    ghost use Rattle.std.specs.Prelude.{◌≡◌, length};
    ghost use Rattle.ms_rules.specs.Room.{RuleRoom};
    ghost use Rattle.ms_rules.specs.Waiting.{IsSized};

    ghost Value = { RuleRoom };

    ghost view = { λ s. record { atoms = s.atoms; rules = length s.propagation.left } };

    ghost invariant = { λ s. (length s.in_set.items ≡ s.atoms) × IsSized s.atoms (length s.propagation.left) s.propagation };
}

impl RuleScratch {
    /// Room for a base of so many atoms and for so many rules over it. It fails only for want of memory.
    pub fn new(alloc: Global, atoms: u32, rules: usize) -> Result<RuleScratch, OutOfMemory>
        ensures atoms { IfOk result (λ scratch. scratch.atoms ≡ atoms) }
        ensures rules { IfOk result (λ scratch. scratch.rules ≡ rules) }
    {
        Ok(RuleScratch {
            atoms,
            in_set: vec![in alloc; false; atoms as usize]?,
            propagation: Propagation::new(alloc, atoms, rules)?,
        })
    }
}
