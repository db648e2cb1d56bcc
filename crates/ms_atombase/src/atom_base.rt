ghost use Rattle.std.specs.Prelude.{◌≡◌, ◌<◌, ◌≤◌, [], All, Any, Some, IsTrue, ◌↔◌, length, take, slice_get, Contains, MatchOption, OnErr, IfOk};
ghost use Rattle.ms_term.specs.Terms.{term_at, IsLarge};
ghost use Rattle.ms_atombase.specs.Bases.{IsPlaceOf, Interns};

use indexmap::IndexSet;
use ms_base::atom_id::AtomId;
use ms_base::limits::MOST_SYMBOLS;
use ms_base::memory::OutOfMemory;
use ms_term::{TermId, Terms};
use std::alloc::Global;
use std::marker::Model;

/// How many atoms a base had at some moment.
#[derive(Clone, Copy, Debug, PartialEq, Eq)]
pub struct Mark {
    len: u32,
}

impl Model for Mark {
    ghost use Rattle.std.specs.Prelude.{ℕ};

    ghost Value = { ℕ };

    ghost view = { λ m. m.len };

    ghost inverse = { λ n. record { len = n } };
}

/// Atoms, each once, in the order in which they came. The number of an atom is its place. Contracts see
/// the list of their terms.
#[derive(Drop)]
pub struct AtomBase {
    atoms: IndexSet<TermId>,
}

impl Model for AtomBase {
    ghost use Rattle.std.specs.Prelude.{ℕ, List};
    ghost use Rattle.ms_atombase.specs.Bases.{IsBase};

    ghost Value = { List ℕ };

    ghost view = { λ b. b.atoms.keys };

    ghost invariant = { λ b. IsBase b.atoms.keys };
}

impl AtomBase {
    /// The base without atoms, which takes no memory.
    pub fn new(alloc: Global) -> AtomBase
        ensures { result ≡ [] }
    {
        AtomBase {
            atoms: IndexSet::new(alloc),
        }
    }

    /// The number of atoms.
    pub fn len(&self) -> u32
        ensures { result ≡ length self.now }
    {
        self.atoms.len() as u32
    }

    pub fn is_empty(&self) -> bool
        ensures { IsTrue result ↔ (length self.now ≡ 0) }
    {
        self.len() == 0
    }

    /// The term of an atom of the base.
    pub fn atom(&self, a: AtomId) -> TermId
        requires { a < length self.now }
        ensures { slice_get self.now a ≡ Some result }
    {
        match self.atoms.get_index(a.0 as usize) {
            Some(term) => *term,
            None => unreachable!(),
        }
    }

    /// The number of the atom with this term, or none exactly where the base has no such atom.
    pub fn find(&self, t: TermId) -> Option<AtomId>
        ensures { MatchOption result (¬ Contains self.now t) (IsPlaceOf self.now t) }
    {
        let place = self.atoms.get_index_of(&t)?;
        Some(AtomId(place as u32))
    }

    /// Whether some atom is large, as it has more than 2,000 symbols. While the table has no large term it
    /// costs no walk over the atoms.
    pub fn has_large(&self, terms: &Terms) -> bool
        requires { All (λ t. t < length terms.now) self.now }
        ensures { IsTrue result ↔ Any (λ t. IsLarge (term_at terms.now t)) self.now }
    {
        terms.first_large().is_some() && any_large(terms, self.atoms.as_slice())
    }

    /// The number of the atom with this term. A new one goes last. Where there is no memory for it the base
    /// stays. The base has fewer than 4,294,967,295 atoms.
    pub fn intern(&mut self, t: TermId) -> Result<AtomId, OutOfMemory>
        requires { length self.old < 4294967295 }
        ensures ok { IfOk result (Interns self.old self.new t) }
        ensures err { OnErr result (self.new ≡ self.old) }
    {
        let (place, _) = self.atoms.insert_full(t)?;
        Ok(AtomId(place as u32))
    }

    /// The present moment.
    pub fn mark(&self) -> Mark
        ensures { result ≡ length self.now }
    {
        Mark { len: self.len() }
    }

    /// Drops the atoms that came after a moment of this base to which it hasn't gone back since.
    pub fn back_to(&mut self, mark: Mark)
        requires { mark ≤ length self.old }
        ensures { self.new ≡ take mark self.old }
    {
        self.atoms.truncate(mark.len as usize);
    }
}

fn any_large(terms: &Terms, atoms: &[TermId]) -> bool
    requires { All (λ t. t < length terms.now) atoms.now }
    ensures { IsTrue result ↔ Any (λ t. IsLarge (term_at terms.now t)) atoms.now }
{
    for atom in atoms {
        if terms.size(*atom) > MOST_SYMBOLS {
            return true;
        }
    }
    false
}
