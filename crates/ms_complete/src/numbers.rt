// The numbers of things, which are declared where they are new.
ghost use Rattle.std.specs.Prelude.{◌≡◌, ◌+◌, ◌<◌, ◌≤◌, ℕ, Some, All, Any, Contains, OnOk, IfOk, slice_get};
ghost use Rattle.ms_join.specs.Things.{Thing};
ghost use Rattle.ms_join.specs.Things.Thing.{atom, body};
ghost use Rattle.ms_things.specs.Numbers.{IsMadeOf};
ghost use Rattle.ms_complete.specs.Keys.{thing_in, plain};
ghost use Rattle.ms_complete.specs.Numbering.{Numbers, Declares, IsAtomOf, IsPartOf, IsOfRule, IsHeadThing, IsNewAtom};
ghost use Rattle.ms_complete.specs.Sets.{Match};
ghost use Rattle.ms_complete.specs.Rules.{IsNumbered, IsAtomAt, IsHeadAt};

use crate::complete::Complete;
use crate::key::{NumberedRule, ThingKey};
use ms_base::atom_id::AtomId;
use ms_base::memory::OutOfMemory;
use ms_base::seq::Seq;
use ms_join::ground_rule::GroundRule;

impl Complete {
    /// The number of a thing whose parts are declared. A new one goes last. That there is no number left counts as
    /// want of memory.
    fn number(&mut self, key: ThingKey) -> Result<u32, OutOfMemory>
        requires { (part : Thing) → IsMadeOf (thing_in key) part → Contains self.old.things part }
        ensures { IfOk result (Numbers self.old self.new (thing_in key)) }
    {
        if self.keys.len() >= u32::MAX as usize {
            return Err(OutOfMemory);
        }
        let (place, _) = self.keys.insert_full(key)?;
        Ok(place as u32)
    }

    fn number_atom(&mut self, a: AtomId) -> Result<u32, OutOfMemory>
        ensures { IfOk result (Numbers self.old self.new (atom a)) }
    {
        self.number(ThingKey::Atom(a))
    }

    /// Declares those of some atoms that are new.
    fn declare(&mut self, atoms: &[AtomId]) -> Result<(), OutOfMemory>
        ensures declares { OnOk result (Declares (IsAtomOf atoms.now) self.old self.new) }
        ensures all { OnOk result (All (λ a. Contains self.new.things (atom a)) atoms.now) }
    {
        for a in atoms {
            self.number_atom(*a)?;
        }
        Ok(())
    }

    /// The number of a body. Atoms of it that are new are declared before it.
    fn number_body(&mut self, pos: &[AtomId], neg: &[AtomId]) -> Result<u32, OutOfMemory>
        ensures declares { OnOk result (Declares (IsPartOf (plain pos.now neg.now)) self.old self.new) }
        ensures number { IfOk result (λ number. slice_get self.new.things number ≡ Some (body (plain pos.now neg.now))) }
    {
        self.declare(pos)?;
        self.declare(neg)?;
        let pos = Seq::copied(self.alloc, pos)?;
        let neg = Seq::copied(self.alloc, neg)?;
        let number = self.number(ThingKey::Body(pos, neg))?;
        Ok(number)
    }

    fn number_head(&mut self, head: Option<AtomId>) -> Result<Option<u32>, OutOfMemory>
        ensures declares { OnOk result (Declares (IsHeadThing head) self.old self.new) }
        ensures number { IfOk result (IsHeadAt self.new.things head) }
    {
        match head {
            Some(a) => Ok(Some(self.number_atom(a)?)),
            None => Ok(None),
        }
    }

    fn number_rule(&mut self, rule: &GroundRule) -> Result<NumberedRule, OutOfMemory>
        ensures declares { OnOk result (Declares (IsOfRule rule.now) self.old self.new) }
        ensures numbered { IfOk result (IsNumbered self.new.things rule.now) }
    {
        let body = self.number_body(rule.pos.as_slice(), rule.neg.as_slice())?;
        let head = self.number_head(rule.head)?;
        Ok(NumberedRule {
            kind: rule.kind,
            head,
            body,
        })
    }

    /// Rules by the numbers of their bodies and heads.
    pub(crate) fn number_rules(
        &mut self,
        rules: &[GroundRule],
    ) -> Result<Vec<NumberedRule>, OutOfMemory>
        ensures declares { OnOk result (Declares (λ t. Any (λ rule. IsOfRule rule t) rules.now) self.old self.new) }
        ensures numbered { IfOk result (λ numbered. Match (IsNumbered self.new.things) rules.now numbered.items) }
    {
        let mut numbered = Vec::with_capacity(self.alloc, rules.len())?;
        for rule in rules {
            let next = self.number_rule(rule)?;
            numbered.push(next)?;
        }
        Ok(numbered)
    }

    /// The numbers of some atoms.
    pub(crate) fn number_atoms(&mut self, atoms: &[AtomId]) -> Result<Vec<u32>, OutOfMemory>
        ensures declares { OnOk result (Declares (IsAtomOf atoms.now) self.old self.new) }
        ensures numbers { IfOk result (λ numbers. Match (IsAtomAt self.new.things) atoms.now numbers.items) }
    {
        let mut numbers = Vec::with_capacity(self.alloc, atoms.len())?;
        for a in atoms {
            let number = self.number_atom(*a)?;
            numbers.push(number)?;
        }
        Ok(numbers)
    }

    /// Declares so many atoms from a number on.
    pub(crate) fn declare_atoms(&mut self, first: u32, count: u32) -> Result<(), OutOfMemory>
        ensures declares { OnOk result (Declares (IsNewAtom first count) self.old self.new) }
        ensures all { OnOk result ((a : ℕ) → first ≤ a → a < first + count → Contains self.new.things (atom a)) }
    {
        let Some(end) = first.checked_add(count) else {
            return Err(OutOfMemory);
        };
        for a in first..end {
            self.number_atom(AtomId(a))?;
        }
        Ok(())
    }
}
