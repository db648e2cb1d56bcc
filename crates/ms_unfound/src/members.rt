// The atoms of the cyclic components of a module.
ghost use Rattle.std.specs.Prelude.{ℕ, ◌≡◌, ◌↔◌, Contains, IfOk, MatchBool, MatchOption, OnOk, Some, ◌++◌, ◌∷◌, [], slice_get};
ghost use Rattle.std.specs.List.Sorted.{IsStrictlyIncreasing};
ghost use Rattle.ms_cone.specs.Cones.{number_of};
ghost use Rattle.ms_unfound.specs.Members.{AreSelected, GoesRound, HasOneOf, HasPassing, IsCyclic, IsRising};
ghost use Rattle.ms_unfound.specs.Taking.{AreCyclicHeads};
ghost use Rattle.ms_join.specs.Modules.{IsWellFormed};

use ms_base::atom_id::AtomId;
use ms_base::memory::OutOfMemory;
use ms_base::seq::Seq;
use ms_cone::{Cone, Dependencies};
use ms_join::ground_module::GroundModule;
use ms_join::ground_rule::GroundRule;
use ms_lits::Numbers;
use std::alloc::Global;

/// Atoms in rising order, and the number of the component of each.
#[derive(Drop)]
pub(crate) struct Members {
    pub atoms: Numbers,
    pub numbers: Numbers,
}

/// The place of a number in a rising list.
pub(crate) fn place_in(rising: &[u32], number: u32) -> Option<usize>
    requires { IsRising rising.now }
    ensures { MatchOption result (¬ Contains rising.now number) (λ place. slice_get rising.now place ≡ Some number) }
{
    match rising.binary_search(&number) {
        Ok(place) => Some(place),
        Err(_) => None,
    }
}

/// Whether one of the atoms is in the component with this number.
fn has_one_of(cone: &Cone, number: u32, atoms: &[AtomId]) -> bool
    ensures { MatchBool result (HasOneOf cone.now number atoms.now) (¬ HasOneOf cone.now number atoms.now) }
{
    for a in atoms {
        if is_numbered(cone, *a, number) {
            return true;
        }
    }
    false
}

/// Whether the atom is in the component with this number.
fn is_numbered(cone: &Cone, a: AtomId, number: u32) -> bool
    ensures { MatchBool result (number_of cone.now a ≡ Some number) (¬ (number_of cone.now a ≡ Some number)) }
{
    match cone.component(a) {
        Some(own) => own == number,
        None => false,
    }
}

/// The number of the component of a rule's head, where a positive atom of the rule is in it too.
fn round_of(cone: &Cone, rule: &GroundRule) -> Option<u32>
    ensures { MatchOption result ((n : ℕ) → ¬ GoesRound cone.now n rule.now) (λ n. GoesRound cone.now n rule.now) }
{
    let Some(head) = rule.head else {
        return None;
    };
    let Some(number) = cone.component(head) else {
        return None;
    };
    if has_one_of(cone, number, rule.pos.as_slice()) {
        Some(number)
    } else {
        None
    }
}

/// The numbers of the cyclic components.
fn rounds_of(alloc: Global, cone: &Cone, rules: &[GroundRule]) -> Result<Vec<u32>, OutOfMemory>
    ensures { IfOk result (λ rounds. (n : ℕ) → Contains rounds.items n ↔ IsCyclic cone.now rules.now n) }
{
    let mut rounds = Vec::new(alloc);
    for rule in rules {
        if let Some(number) = round_of(cone, rule) {
            rounds.push(number)?;
        }
    }
    Ok(rounds)
}

/// The number of the component of an atom, where it is one of these.
fn number_among(cone: &Cone, rounds: &[u32], a: AtomId) -> Option<u32>
    requires { IsRising rounds.now }
    ensures { MatchOption result ((n : ℕ) → ¬ HasPassing cone.now (Contains rounds.now) a n) (HasPassing cone.now (Contains rounds.now) a) }
{
    let Some(number) = cone.component(a) else {
        return None;
    };
    match place_in(rounds, number) {
        Some(_) => Some(number),
        None => None,
    }
}

/// Those of the atoms that are in one of these components.
fn selected(
    alloc: Global,
    cone: &Cone,
    rounds: &[u32],
    atoms: &[AtomId],
) -> Result<Members, OutOfMemory>
    requires rounds { IsRising rounds.now }
    requires atoms { IsStrictlyIncreasing atoms.now }
    ensures { IfOk result (AreSelected cone.now (Contains rounds.now) atoms.now) }
{
    let mut members = Members {
        atoms: Seq::new(alloc),
        numbers: Seq::new(alloc),
    };
    for a in atoms {
        if let Some(number) = number_among(cone, rounds, *a) {
            members.push(*a, number)?;
        }
    }
    Ok(members)
}

impl Members {
    fn push(&mut self, a: AtomId, number: u32) -> Result<(), OutOfMemory>
        ensures { OnOk result (self.new ≡ record { atoms = self.old.atoms ++ a ∷ []; numbers = self.old.numbers ++ number ∷ [] }) }
    {
        self.atoms.push(a.0)?;
        self.numbers.push(number)?;
        Ok(())
    }
}

/// Those of the heads that are in a cyclic component.
pub(crate) fn members_of(
    alloc: Global,
    cone: &Cone,
    rules: &[GroundRule],
    heads: &[AtomId],
) -> Result<Members, OutOfMemory>
    requires { IsStrictlyIncreasing heads.now }
    ensures { IfOk result (AreSelected cone.now (IsCyclic cone.now rules.now) heads.now) }
{
    let mut rounds = rounds_of(alloc, cone, rules)?;
    rounds.sort_unstable();
    selected(alloc, cone, rounds.as_slice(), heads)
}

/// Those of the heads of a module that are in a cyclic component of its rules.
pub(crate) fn cyclic_heads(alloc: Global, m: &GroundModule) -> Result<Members, OutOfMemory>
    requires { IsWellFormed m.now.first_new m.now }
    ensures { IfOk result (AreCyclicHeads m.now) }
{
    let Some(atoms) = m.first_new.checked_add(m.fresh) else {
        return Err(OutOfMemory);
    };
    let rules = m.rules.as_slice();
    let heads = m.heads.as_slice();
    let cone = Cone::around(alloc, &Dependencies::new(alloc), rules, atoms, heads)?;
    members_of(alloc, &cone, rules, heads)
}
