// The completion nogoods of bodies and rules.
ghost use Rattle.std.specs.Prelude.{◌≡◌, ◌∷◌, ◌++◌, [], true, false, List, Some, All, Any, Contains, OnOk, IfOk, slice_get, map, ◌<◌, length};
ghost use Rattle.ms_join.specs.Things.Thing.{atom, body};
ghost use Rattle.ms_things.specs.Signs.{Signed, IsFor};
ghost use Rattle.ms_things.specs.Completion.{parts_of};
ghost use Rattle.ms_complete.specs.Keys.{plain};
ghost use Rattle.ms_complete.specs.Numbering.{AreDeclared};
ghost use Rattle.ms_complete.specs.Bases.{AddsExactly};
ghost use Rattle.ms_complete.specs.Sets.{Match};
ghost use Rattle.ms_complete.specs.Rules.{RuleSays, BodySays, PartsSay, ThingSays, NewSay, signed_atoms};

use crate::complete::Complete;
use crate::key::{NumberedRule, ThingKey};
use crate::written::{add_pair, add_set};
use ms_base::atom_id::AtomId;
use ms_base::memory::OutOfMemory;
use ms_join::ground_rule::GroundKind;
use ms_lits::Lit;
use ms_nogood::Nogoods;
use std::alloc::Global;

impl Complete {
    /// Adds those of the bodies from a number on.
    pub(crate) fn add_bodies(&self, known: usize, store: &mut Nogoods) -> Result<(), OutOfMemory>
        ensures adds { OnOk result (AddsExactly store.old store.new (NewSay self.now.things known)) }
        ensures declared { AreDeclared self.now.things }
    {
        let end = self.things() as usize;
        for number in known..end {
            self.add_thing(number, store)?;
        }
        Ok(())
    }

    /// Adds those of one thing. An atom by itself has none.
    fn add_thing(&self, number: usize, store: &mut Nogoods) -> Result<(), OutOfMemory>
        requires { number < length self.now.things }
        ensures { OnOk result (AddsExactly store.old store.new (ThingSays self.now.things number)) }
    {
        match &self.keys.as_slice()[number] {
            ThingKey::Atom(_) => Ok(()),
            ThingKey::Body(pos, neg) => {
                let parts = self.parts_of(pos.as_slice(), neg.as_slice())?;
                add_body(self.alloc, number as u32, parts, store)?;
                Ok(())
            }
        }
    }

    /// The literals of a body.
    pub(crate) fn parts_of(&self, pos: &[AtomId], neg: &[AtomId]) -> Result<Vec<Lit>, OutOfMemory>
        requires positive { All (λ a. Contains self.now.things (atom a)) pos.now }
        requires negated { All (λ a. Contains self.now.things (atom a)) neg.now }
        ensures { IfOk result (λ lits. Match (IsFor self.now.things) (parts_of (plain pos.now neg.now)) lits.items) }
    {
        let mut lits = Vec::new(self.alloc);
        self.push_lits(pos, true, &mut lits)?;
        self.push_lits(neg, false, &mut lits)?;
        Ok(lits)
    }

    fn push_lits(
        &self,
        atoms: &[AtomId],
        truth: bool,
        lits: &mut Vec<Lit>,
    ) -> Result<(), OutOfMemory>
        requires { All (λ a. Contains self.now.things (atom a)) atoms.now }
        ensures { OnOk result ((signs : List Signed) → Match (IsFor self.now.things) signs lits.old.items → Match (IsFor self.now.things) (signs ++ signed_atoms truth atoms.now) lits.new.items) }
    {
        for a in atoms {
            let var = self.thing_of(*a);
            lits.push(Lit { var, truth })?;
        }
        Ok(())
    }
}

/// Adds those of a body: its parts without it, and it without each of its parts.
fn add_body(
    alloc: Global,
    number: u32,
    mut parts: Vec<Lit>,
    store: &mut Nogoods,
) -> Result<(), OutOfMemory>
    ensures { OnOk result (AddsExactly store.old store.new (BodySays number parts.items)) }
{
    add_parts(alloc, number, parts.as_slice(), store)?;
    parts.push(Lit {
        var: number,
        truth: false,
    })?;
    add_set(alloc, parts.as_mut_slice(), store)?;
    Ok(())
}

fn add_parts(
    alloc: Global,
    number: u32,
    parts: &[Lit],
    store: &mut Nogoods,
) -> Result<(), OutOfMemory>
    ensures { OnOk result (AddsExactly store.old store.new (PartsSay number parts.now)) }
{
    for part in parts {
        let whole = Lit {
            var: number,
            truth: true,
        };
        add_pair(alloc, whole, part.opposite(), store)?;
    }
    Ok(())
}

/// Adds those of rules that say that a head holds where a body does, and that no constraint's body holds.
pub(crate) fn add_rules(
    alloc: Global,
    rules: &[NumberedRule],
    store: &mut Nogoods,
) -> Result<(), OutOfMemory>
    ensures { OnOk result (AddsExactly store.old store.new (λ nogood. Any (λ r. RuleSays r nogood) rules.now)) }
{
    for rule in rules {
        add_rule(alloc, rule, store)?;
    }
    Ok(())
}

fn add_rule(alloc: Global, rule: &NumberedRule, store: &mut Nogoods) -> Result<(), OutOfMemory>
    ensures { OnOk result (AddsExactly store.old store.new (RuleSays rule.now)) }
{
    let body = Lit {
        var: rule.body,
        truth: true,
    };
    match (rule.kind, rule.head) {
        (GroundKind::Normal, Some(head)) => {
            let head = Lit {
                var: head,
                truth: false,
            };
            add_pair(alloc, body, head, store)
        }
        (GroundKind::Constraint, _) => add_set(alloc, &mut [body], store),
        _ => Ok(()),
    }
}
