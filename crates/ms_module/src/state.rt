// The rules and inputs of a join.
ghost use Rattle.std.specs.Prelude.{◌≡◌, ℕ, ◌+◌, ◌^◌, ◌<◌, ◌↔◌, ◌∷◌, [], ◌++◌, Some, false, IsTrue, All, IfOk, MatchOption, OnOk, Contains};
ghost use Rattle.ms_join.specs.AnswerSets.{IsAtomSet};
ghost use Rattle.ms_join.specs.Modules.{IsInput, IsJoined, IsOutput, IsWellFormed, no_join, rules_of, value_of};
ghost use Rattle.ms_module.specs.Faults.{AreThose};
ghost use Rattle.ms_module.specs.Inputs.{IsInputAt, Assigns, Releases, AreInputs, Declares, Withdraws};

use crate::copies::append_copies;
use ms_base::atom_id::AtomId;
use ms_base::memory::OutOfMemory;
use ms_base::seq::Seq;
use ms_base::truth::{Effect, Truth};
use ms_join::ground_module::GroundModule;
use ms_join::ground_rule::{GroundRule, Input, Rules};
use std::alloc::Global;
use std::marker::Model;
use std::mem;

/// The rules and inputs of a join, with the place of each input among them. Each call but `grow` and the
/// additions takes no memory. Contracts see a join.
#[derive(Drop)]
pub(crate) struct State {
    rules: Rules,
    /// One for each atom of the base. An atom is an input exactly where the input at its place is of it.
    places: Vec<u32>,
    alloc: Global,
}

impl Model for State {
    ghost use Rattle.std.specs.Prelude.{length};
    ghost use Rattle.ms_join.specs.Modules.{Join};
    ghost use Rattle.ms_module.specs.Faults.{AreThose};
    ghost use Rattle.ms_module.specs.Inputs.{ArePlaced};

    ghost Value = { Join };

    ghost view = { λ s. record { atoms = length s.places.items; rules = s.rules.rules; inputs = s.rules.inputs } };

    ghost invariant = { λ s. ArePlaced s.places.items s.rules.inputs };
}

impl State {
    pub fn new(alloc: Global) -> State
        ensures { result ≡ no_join }
    {
        State {
            rules: Rules {
                rules: Seq::new(alloc),
                inputs: Seq::new(alloc),
            },
            places: Vec::new(alloc),
            alloc,
        }
    }

    pub fn rules(&self) -> &Rules
        ensures value { result.now ≡ rules_of self.now }
        ensures inputs { AreInputs self.now }
    {
        &self.rules
    }

    /// The place of an input, or none exactly where the atom is no input.
    fn place(&self, a: AtomId) -> Option<u32>
        ensures { MatchOption result (¬ IsInput self.now a) (IsInputAt self.now.inputs a) }
    {
        let place = *self.places.get(a.0 as usize)?;
        let input = self.rules.inputs.as_slice().get(place as usize)?;
        if input.atom == a { Some(place) } else { None }
    }

    /// The value of an input, or none exactly where the atom is no input.
    pub fn truth(&self, a: AtomId) -> Option<Truth>
        ensures { MatchOption result (¬ IsInput self.now a) (λ t. Contains self.now.inputs (record { atom = a; value = value_of t })) }
    {
        let place = self.place(a)?;
        Some(truth_of(self.rules.inputs.as_slice()[place as usize].value))
    }

    /// The number of atoms of the base.
    pub fn atoms(&self) -> usize
        ensures { result ≡ self.now.atoms }
    {
        self.places.len()
    }

    /// Whether the base has the atom.
    pub fn has_atom(&self, a: AtomId) -> bool
        ensures { IsTrue result ↔ (a < self.now.atoms) }
    {
        (a.0 as usize) < self.places.len()
    }

    /// Those of the atoms that the base has.
    pub fn old_among(&self, alloc: Global, atoms: &[AtomId]) -> Result<Vec<AtomId>, OutOfMemory>
        ensures { IfOk result (λ v. AreThose atoms.now (λ a. a < self.now.atoms) v.items) }
    {
        let mut found = Vec::new(alloc);
        for a in atoms {
            if self.has_atom(*a) {
                found.push(*a)?;
            }
        }
        Ok(found)
    }

    pub fn is_output(&self, a: AtomId) -> bool
        ensures { IsTrue result ↔ IsOutput self.now a }
    {
        self.has_atom(a) && self.place(a).is_none()
    }

    /// Gives an input a value.
    pub fn assign(&mut self, a: AtomId, truth: Truth) -> Effect
        ensures assigns { Assigns self.old a (value_of truth) self.new result }
        ensures inputs { AreInputs self.new }
    {
        let Some(place) = self.place(a) else {
            return Effect::NoEffect;
        };
        let mut inputs = mem::replace(&mut self.rules.inputs, Seq::new(self.alloc)).into_vec();
        inputs[place as usize].value = value_of(truth);
        self.rules.inputs = Seq::from_vec(inputs);
        Effect::Done
    }

    /// Makes an input an output.
    pub fn release(&mut self, a: AtomId) -> Effect
        ensures releases { Releases self.old a self.new result }
        ensures inputs { AreInputs self.new }
    {
        let Some(place) = self.place(a) else {
            return Effect::NoEffect;
        };
        let mut inputs = mem::replace(&mut self.rules.inputs, Seq::new(self.alloc)).into_vec();
        let last = inputs[inputs.len() - 1].atom;
        self.places[last.0 as usize] = place;
        inputs.swap_remove(place as usize);
        self.rules.inputs = Seq::from_vec(inputs);
        Effect::Done
    }

    /// Adds a module, of which the rules are copied.
    pub fn add(&mut self, m: &GroundModule) -> Result<(), OutOfMemory>
        requires well_formed { IsWellFormed self.old.atoms m.now }
        requires few { self.old.atoms + m.now.fresh < 2 ^ 32 }
        requires inputs { All (λ i. i.atom < self.old.atoms) self.old.inputs }
        ensures joined { OnOk result (IsJoined self.old m.now self.new) }
        ensures inputs { OnOk result (AreInputs self.new) }
    {
        self.add_atoms(m)?;
        self.append(m.rules.as_slice())?;
        Ok(())
    }

    /// Adds the atoms of a module, with what becomes of the inputs.
    fn add_atoms(&mut self, m: &GroundModule) -> Result<(), OutOfMemory>
        requires well_formed { IsWellFormed self.old.atoms m.now }
        requires few { self.old.atoms + m.now.fresh < 2 ^ 32 }
        requires inputs { All (λ i. i.atom < self.old.atoms) self.old.inputs }
        ensures { OnOk result (IsJoined self.old (record m.now { rules = [] }) self.new) }
    {
        let first = self.atoms();
        self.grow(m.fresh)?;
        self.declare(first, m.externals.as_slice())?;
        self.withdraw(m.heads.as_slice());
        Ok(())
    }

    /// Adds atoms to the base. They are outputs.
    fn grow(&mut self, fresh: u32) -> Result<(), OutOfMemory>
        ensures { OnOk result (self.new ≡ record self.old { atoms = self.old.atoms + fresh }) }
    {
        self.places.resize(self.places.len() + fresh as usize, 0)?;
        Ok(())
    }

    /// Makes those of the atoms inputs whose number isn't below `first`, with the value false. The atoms rise.
    fn declare(&mut self, first: usize, atoms: &[AtomId]) -> Result<(), OutOfMemory>
        requires few { self.old.atoms < 2 ^ 32 }
        requires atoms { IsAtomSet self.old.atoms atoms.now }
        requires old { All (λ i. i.atom < first) self.old.inputs }
        ensures { OnOk result (Declares self.old first atoms.now self.new) }
    {
        for a in atoms {
            if first <= a.0 as usize {
                self.declare_one(*a)?;
            }
        }
        Ok(())
    }

    fn declare_one(&mut self, a: AtomId) -> Result<(), OutOfMemory>
        requires few { self.old.atoms < 2 ^ 32 }
        requires within { a < self.old.atoms }
        requires new { ¬ IsInput self.old a }
        ensures { OnOk result (self.new ≡ record self.old { inputs = self.old.inputs ++ (record { atom = a; value = Some false }) ∷ [] }) }
    {
        let place = self.rules.inputs.len() as u32;
        self.rules.inputs.push(Input {
            atom: a,
            value: Some(false),
        })?;
        self.places[a.0 as usize] = place;
        Ok(())
    }

    /// Makes the inputs among the atoms outputs.
    fn withdraw(&mut self, atoms: &[AtomId])
        ensures { Withdraws self.old atoms.now self.new }
    {
        for a in atoms {
            self.release(*a);
        }
    }

    /// Adds copies of rules at the end.
    fn append(&mut self, rules: &[GroundRule]) -> Result<(), OutOfMemory>
        ensures ok { OnOk result (self.new ≡ record self.old { rules = self.old.rules ++ rules.now }) }
        ensures inputs { OnOk result (AreInputs self.new) }
    {
        append_copies(self.alloc, rules, &mut self.rules.rules)
    }
}

fn truth_of(value: Option<bool>) -> Truth
    ensures { value_of result ≡ value }
{
    match value {
        Some(true) => Truth::True,
        Some(false) => Truth::False,
        None => Truth::Free,
    }
}

fn value_of(truth: Truth) -> Option<bool>
    ensures { result ≡ value_of truth }
{
    match truth {
        Truth::True => Some(true),
        Truth::False => Some(false),
        Truth::Free => None,
    }
}
