// The searches along links from atoms to atoms.
ghost use Rattle.std.specs.Prelude.{◌≡◌, ◌+◌, ◌<◌, ◌↔◌, ◌⊎◌, ℕ, IsTrue, All, length, slice_get, Some, IfOk, OnOk};
ghost use Rattle.ms_cone.specs.Links.{HaveEndsBelow, IsLinked};
ghost use Rattle.ms_cone.specs.Dependencies.{IsBelow};
ghost use Rattle.ms_cone.specs.Search.{Advances, Enters, Follows, IsExplored, IsFound, IsStart, IsWhole, Visits, led_by};

use crate::dependencies::Dependencies;
use crate::links::Links;
use indexmap::IndexSet;
use ms_base::atom_id::AtomId;
use ms_base::memory::OutOfMemory;
use ms_base::seq::Seq;
use ms_graph::{Edge, Edges};
use std::alloc::Global;
use std::marker::Model;

/// The atoms that were found so far, in the order in which they were found, and the edges between their places. The atoms to
/// which the first `visited` of them lead are among them.
#[derive(Drop)]
pub(crate) struct Search {
    /// The number of atoms of the base.
    atoms: u32,
    pub(crate) members: IndexSet<u32>,
    pub(crate) edges: Edges,
    visited: u32,
    /// How many links it will have followed after its next visit. Nothing is proved of it.
    cost: usize,
}

impl Model for Search {
    ghost use Rattle.ms_cone.specs.Search.{Found, IsFound};

    ghost Value = { Found };

    ghost view = { λ s. record { atoms = s.atoms; members = s.members.keys; edges = s.edges; visited = s.visited } };

    ghost invariant = { λ s. IsFound (record { atoms = s.atoms; members = s.members.keys; edges = s.edges; visited = s.visited }) };
}

impl Search {
    /// The starts are found.
    fn new(alloc: Global, atoms: u32, starts: &[AtomId]) -> Result<Search, OutOfMemory>
        requires { All (λ a. a < atoms) starts.now }
        ensures atoms { IfOk result (λ s. s.atoms ≡ atoms) }
        ensures start { IfOk result (IsStart starts.now) }
    {
        let mut search = Search {
            atoms,
            members: IndexSet::new(alloc),
            edges: Seq::new(alloc),
            visited: 0,
            cost: 0,
        };
        for atom in starts {
            search.enter(*atom)?;
        }
        Ok(search)
    }

    /// The place of an atom, which goes last where it wasn't there.
    fn enter(&mut self, atom: AtomId) -> Result<u32, OutOfMemory>
        requires { atom < self.old.atoms }
        ensures { IfOk result (Enters self.old self.new atom) }
    {
        let (place, _) = self.members.insert_full(atom.0)?;
        Ok(place as u32)
    }

    /// An atom is found, to which the one in a place leads.
    fn arrive(&mut self, atom: AtomId, place: u32) -> Result<(), OutOfMemory>
        requires atom { atom < self.old.atoms }
        requires place { place < length self.old.members }
        ensures { OnOk result ((b : ℕ) → slice_get self.old.members place ≡ Some b → Follows self.old self.new b (λ a. a ≡ atom)) }
    {
        let from = self.enter(atom)?;
        self.edges.push(Edge { from, to: place })?;
        Ok(())
    }

    /// The atoms to which the one in this place is linked are found.
    fn follow(&mut self, links: &Links, atom: AtomId, place: u32) -> Result<(), OutOfMemory>
        requires ends { HaveEndsBelow self.old.atoms links.now }
        requires member { slice_get self.old.members place ≡ Some atom }
        ensures { OnOk result (Follows self.old self.new atom (IsLinked links.now atom)) }
    {
        let mut rest = links.chain(atom).last;
        while rest > 0 {
            let link = links.link(rest);
            self.arrive(link.to, place)?;
            rest = link.before;
        }
        Ok(())
    }

    /// The atoms to which the member in a place is linked are found.
    fn follow_both(&mut self, old: &Links, new: &Links, place: u32) -> Result<(), OutOfMemory>
        requires old { HaveEndsBelow self.old.atoms old.now }
        requires new { HaveEndsBelow self.old.atoms new.now }
        requires place { place < length self.old.members }
        ensures { OnOk result ((b : ℕ) → slice_get self.old.members place ≡ Some b → Follows self.old self.new b (λ a. led_by old.now new.now a b)) }
    {
        let atom = AtomId(self.members.as_slice()[place as usize]);
        self.follow(old, atom, place)?;
        self.follow(new, atom, place)?;
        Ok(())
    }

    /// Visits the next member.
    fn visit(&mut self, old: &Links, new: &Links) -> Result<(), OutOfMemory>
        requires old { HaveEndsBelow self.old.atoms old.now }
        requires new { HaveEndsBelow self.old.atoms new.now }
        requires some { self.old.visited < length self.old.members }
        ensures { OnOk result (Visits self.old self.new (led_by old.now new.now)) }
    {
        self.follow_both(old, new, self.visited)?;
        self.pass();
        self.look_ahead(old, new);
        Ok(())
    }

    /// The next member was visited.
    fn pass(&mut self)
        requires { self.old.visited < length self.old.members }
        ensures { self.new ≡ record self.old { visited = self.old.visited + 1 } }
    {
        self.visited += 1;
    }

    /// Counts the links that the next visit will follow.
    fn look_ahead(&mut self, old: &Links, new: &Links)
        ensures { self.new ≡ self.old }
    {
        if let Some(atom) = self.members.get_index(self.visited as usize) {
            let next = old.chain(AtomId(*atom)).count;
            let more = new.chain(AtomId(*atom)).count;
            self.cost = self
                .cost
                .saturating_add(next)
                .saturating_add(more)
                .saturating_add(1);
        }
    }

    /// Whether each member was visited.
    fn is_whole(&self) -> bool
        ensures whole { IsTrue result ↔ (self.now.visited ≡ length self.now.members) }
        ensures found { IsFound self.now }
    {
        self.visited as usize == self.members.len()
    }
}

/// Advances the search that will have followed fewer links.
fn advance(
    forth: &mut Search,
    back: &mut Search,
    old: &Dependencies,
    new: &Dependencies,
) -> Result<(), OutOfMemory>
    requires old_forth { IsBelow forth.old.atoms old.now }
    requires new_forth { IsBelow forth.old.atoms new.now }
    requires old_back { IsBelow back.old.atoms old.now }
    requires new_back { IsBelow back.old.atoms new.now }
    requires forth_some { forth.old.visited < length forth.old.members }
    requires back_some { back.old.visited < length back.old.members }
    ensures { OnOk result (Advances forth.old forth.new (led_by old.now.needs new.now.needs) back.old back.new (led_by old.now.uses new.now.uses)) }
{
    if forth.cost <= back.cost {
        forth.visit(&old.needs, &new.needs)?;
    } else {
        back.visit(&old.uses, &new.uses)?;
    }
    Ok(())
}

/// The first whole one of two searches from the starts: one for what they depend on by either dependencies, and one for
/// what depends on them.
pub(crate) fn first_whole(
    alloc: Global,
    old: &Dependencies,
    new: &Dependencies,
    atoms: u32,
    starts: &[AtomId],
) -> Result<Search, OutOfMemory>
    requires old { IsBelow atoms old.now }
    requires new { IsBelow atoms new.now }
    requires starts { All (λ a. a < atoms) starts.now }
    ensures { IfOk result (λ s. IsWhole (led_by old.now.needs new.now.needs) starts.now s ⊎ IsWhole (led_by old.now.uses new.now.uses) starts.now s) }
{
    let mut forth = Search::new(alloc, atoms, starts)?;
    let mut back = Search::new(alloc, atoms, starts)?;
    forth.look_ahead(&old.needs, &new.needs);
    back.look_ahead(&old.uses, &new.uses);
    loop {
        if forth.is_whole() {
            return Ok(forth);
        }
        if back.is_whole() {
            return Ok(back);
        }
        advance(&mut forth, &mut back, old, new)?;
    }
}
