// Links from atoms to atoms, those from each atom linked backwards.
ghost use Rattle.std.specs.Prelude.{◌≡◌, ◌-◌, ◌<◌, ◌≤◌, [], length, OnOk};
ghost use Rattle.std.specs.List.{slice_index_or};
ghost use Rattle.ms_cone.specs.Chains.{IsLast};
ghost use Rattle.ms_cone.specs.Links.{AddsLinks};

use indexmap::IndexMap;
use ms_base::atom_id::AtomId;
use ms_base::memory::OutOfMemory;
use std::alloc::Global;
use std::marker::Model;

/// A link from one atom to another.
#[derive(Clone, Copy, Debug, PartialEq, Eq)]
pub(crate) struct Link {
    pub from: AtomId,
    pub to: AtomId,
    /// The place after the link from the same atom before this one, or 0.
    pub before: usize,
}

/// The links from an atom.
#[derive(Clone, Copy, Debug, PartialEq, Eq)]
pub(crate) struct Chain {
    /// The place after the last one, or 0.
    pub last: usize,
    /// How many they are. Nothing is proved of it.
    pub count: usize,
}

/// Links between atoms. Contracts see them in the order in which they came.
#[derive(Drop)]
pub(crate) struct Links {
    chains: IndexMap<u32, Chain>,
    links: Vec<Link>,
}

impl Model for Links {
    ghost use Rattle.std.specs.Prelude.{List, nat_eq};
    ghost use Rattle.indexmap.specs.IndexMap.{get};
    ghost use Rattle.ms_cone.specs.declared.links.Link.{Link};
    ghost use Rattle.ms_cone.specs.Chains.{AreChained};

    ghost Value = { List Link };

    ghost view = { λ d. d.links.items };

    ghost invariant = { λ d. AreChained d.links.items (get nat_eq d.chains) };
}

impl Links {
    pub fn new(alloc: Global) -> Links
        ensures { result ≡ [] }
    {
        Links {
            chains: IndexMap::new(alloc),
            links: Vec::new(alloc),
        }
    }

    pub fn add(&mut self, from: AtomId, to: AtomId) -> Result<(), OutOfMemory>
        ensures { OnOk result (AddsLinks self.old self.new (λ a b. (a ≡ from) × (b ≡ to))) }
    {
        self.chains.reserve(1)?;
        let chain = self.chain(from);
        let before = chain.last;
        let count = chain.count.saturating_add(1);
        self.links.push(Link { from, to, before })?;
        let last = self.links.len();
        self.chains.insert(from.0, Chain { last, count })?;
        Ok(())
    }

    /// The links from an atom.
    pub fn chain(&self, from: AtomId) -> Chain
        ensures { IsLast self.now from (length self.now) result.last }
    {
        match self.chains.get(&from.0) {
            Some(chain) => *chain,
            None => Chain { last: 0, count: 0 },
        }
    }

    /// The link before a place.
    pub fn link(&self, place: usize) -> Link
        requires within { 0 < place }
        requires found { place ≤ length self.now }
        ensures at { result ≡ slice_index_or self.now (place - 1) result }
        ensures before { IsLast self.now result.from (place - 1) result.before }
    {
        self.links[place - 1]
    }
}
