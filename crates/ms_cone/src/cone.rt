// The components of given atoms, with others around them.
ghost use Rattle.std.specs.Prelude.{◌≡◌, ◌<◌, ◌++◌, ℕ, List, All, length, slice_get, slice_index, Some, IfOk};
ghost use Rattle.ms_join.specs.declared.ground_rule.GroundRule.{GroundRule};
ghost use Rattle.ms_join.specs.AnswerSets.{IsRuleOver};
ghost use Rattle.ms_cone.specs.Search.{AreNumbered};
ghost use Rattle.ms_cone.specs.Dependencies.{IsBelow, Keeps};
ghost use Rattle.ms_cone.specs.Cones.{IsCone, number_of};

use crate::dependencies::Dependencies;
use crate::search::{Search, first_whole};
use indexmap::IndexSet;
use ms_base::atom_id::AtomId;
use ms_base::memory::OutOfMemory;
use ms_graph::{Comps, components};
use ms_join::ground_rule::GroundRule;
use std::alloc::Global;
use std::marker::Model;

/// Atoms, each once and in places from 0, with the numbers of their components.
#[derive(Drop)]
pub struct Cone {
    members: IndexSet<u32>,
    numbers: Comps,
}

impl Model for Cone {
    ghost use Rattle.ms_cone.specs.Cones.{Numbered, IsNumbered};

    ghost Value = { Numbered };

    ghost view = { λ c. record { members = c.members.keys; numbers = c.numbers } };

    ghost invariant = { λ c. IsNumbered (record { members = c.members.keys; numbers = c.numbers }) };
}

impl Cone {
    /// The components of the starts, and of others, by old rules, of which the dependencies are kept, and new ones. Two
    /// members have equal numbers exactly where they are in one component. All atoms of the rules and all starts are below the
    /// number of atoms. It fails only for want of memory. Time and room grow with the new rules, and with the lesser of
    /// what the starts depend on and what depends on them.
    pub fn around(
        alloc: Global,
        old: &Dependencies,
        new: &[GroundRule],
        atoms: u32,
        starts: &[AtomId],
    ) -> Result<Cone, OutOfMemory>
        requires old { IsBelow atoms old.now }
        requires new { All (IsRuleOver atoms) new.now }
        requires starts { All (λ a. a < atoms) starts.now }
        ensures { IfOk result (λ cone. (rules : List GroundRule) → Keeps old.now rules → IsCone (rules ++ new.now) starts.now cone) }
    {
        let mut fresh = Dependencies::new(alloc);
        fresh.add(new)?;
        let search = first_whole(alloc, old, &fresh, atoms, starts)?;
        Cone::numbered(alloc, search)
    }

    /// The members of a search with the numbers of their components.
    fn numbered(alloc: Global, search: Search) -> Result<Cone, OutOfMemory>
        ensures { IfOk result (AreNumbered search) }
    {
        let count = search.members.len() as u32;
        let numbers = components(alloc, count, &search.edges)?;
        Ok(Cone {
            members: search.members,
            numbers,
        })
    }

    /// The number of atoms.
    pub fn len(&self) -> usize
        ensures { result ≡ length self.now.members }
    {
        self.members.len()
    }

    /// The atom in a place.
    pub fn member(&self, place: usize) -> AtomId
        requires { place < length self.now.members }
        ensures { slice_get self.now.members place ≡ Some result }
    {
        match self.members.get_index(place) {
            Some(atom) => AtomId(*atom),
            None => unreachable!(),
        }
    }

    /// The number of the component of the atom in a place. It is below the number of atoms.
    pub fn number(&self, place: usize) -> u32
        requires { place < length self.now.members }
        ensures number { result ≡ slice_index self.now.numbers place }
        ensures below { result < length self.now.members }
        ensures of_member { (a : ℕ) → slice_get self.now.members place ≡ Some a → number_of self.now a ≡ Some result }
    {
        self.numbers.as_slice()[place]
    }

    /// The number of an atom's component, or none exactly where the atom isn't there.
    pub fn component(&self, atom: AtomId) -> Option<u32>
        ensures { result ≡ number_of self.now atom }
    {
        let place = self.members.get_index_of(&atom.0)?;
        Some(self.numbers.as_slice()[place])
    }
}
