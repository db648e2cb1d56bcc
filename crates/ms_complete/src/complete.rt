ghost use Rattle.std.specs.Prelude.{◌≡◌, [], ◌++◌, Some, Contains, OnOk, IfOk, length, slice_get};
ghost use Rattle.ms_join.specs.Things.{body_of};
ghost use Rattle.ms_join.specs.Things.Thing.{atom, body};
ghost use Rattle.ms_complete.specs.Numbering.{AreDeclared};
ghost use Rattle.ms_complete.specs.Completing.{Completes};

use crate::key::ThingKey;
use crate::nogoods::add_rules;
use crate::supports::{add_supports, supports_of};
use indexmap::IndexSet;
use ms_base::atom_id::AtomId;
use ms_base::memory::OutOfMemory;
use ms_base::seq::Seq;
use ms_join::aggregate::TermIds;
use ms_join::ground_module::GroundModule;
use ms_join::ground_rule::GroundRule;
use ms_nogood::Nogoods;
use ms_term::TermId;
use std::alloc::Global;
use std::marker::Model;

/// The things of a join, numbered in the order of their declaration, and the names of the terms of its atoms.
#[derive(Drop)]
pub struct Complete {
    pub(crate) alloc: Global,
    pub(crate) keys: IndexSet<ThingKey>,
    pub(crate) names: TermIds,
}

impl Model for Complete {
    ghost use Rattle.std.specs.Prelude.{map};
    ghost use Rattle.ms_complete.specs.Numbering.{Numbering, AreDeclared};
    ghost use Rattle.ms_complete.specs.Keys.{thing_in};

    ghost Value = { Numbering };

    ghost view = { λ c. record { things = map thing_in c.keys.keys; names = c.names } };

    ghost invariant = { λ c. AreDeclared (map thing_in c.keys.keys) };
}

impl Complete {
    /// The things of the join of no modules, which takes no memory.
    pub fn new(alloc: Global) -> Complete
        ensures { result ≡ record { things = []; names = [] } }
    {
        Complete {
            alloc,
            keys: IndexSet::new(alloc),
            names: Seq::new(alloc),
        }
    }

    /// The number of things.
    pub fn things(&self) -> u32
        ensures count { result ≡ length self.now.things }
        ensures declared { AreDeclared self.now.things }
    {
        self.keys.len() as u32
    }

    /// The number of an atom.
    pub fn thing_of(&self, a: AtomId) -> u32
        requires { Contains self.now.things (atom a) }
        ensures { slice_get self.now.things result ≡ Some (atom a) }
    {
        match self.keys.get_index_of(&ThingKey::Atom(a)) {
            Some(place) => place as u32,
            None => unreachable!(),
        }
    }

    /// The number of the body of a rule.
    pub fn body_of(&self, rule: &GroundRule) -> Result<u32, OutOfMemory>
        requires { Contains self.now.things (body (body_of rule.now)) }
        ensures { IfOk result (λ number. slice_get self.now.things number ≡ Some (body (body_of rule.now))) }
    {
        let pos = Seq::copied(self.alloc, rule.pos.as_slice())?;
        let neg = Seq::copied(self.alloc, rule.neg.as_slice())?;
        match self.keys.get_index_of(&ThingKey::Body(pos, neg)) {
            Some(place) => Ok(place as u32),
            None => unreachable!(),
        }
    }

    /// Takes a module that is well formed over a join with these things and composable with it: numbers the new
    /// things, and adds the completion nogoods of what is new to the store, which has those of the join. After an
    /// error some of it may be done.
    pub fn extend(&mut self, m: &GroundModule, store: &mut Nogoods) -> Result<(), OutOfMemory>
        ensures { OnOk result (Completes self.old m.now store.old self.new store.new) }
    {
        let known = self.things();
        self.take_names(m.names.as_slice())?;
        self.declare_atoms(m.first_new, m.fresh)?;
        let rules = self.number_rules(m.rules.as_slice())?;
        let heads = self.number_atoms(m.heads.as_slice())?;
        self.add_bodies(known as usize, store)?;
        add_rules(self.alloc, rules.as_slice(), store)?;
        let supports = supports_of(self.alloc, rules.as_slice())?;
        add_supports(self.alloc, heads.as_slice(), supports.as_slice(), store)?;
        Ok(())
    }

    fn take_names(&mut self, names: &[TermId]) -> Result<(), OutOfMemory>
        ensures { OnOk result (self.new ≡ record self.old { names = self.old.names ++ names.now }) }
    {
        self.names.extend_from_slice(names)?;
        Ok(())
    }
}
