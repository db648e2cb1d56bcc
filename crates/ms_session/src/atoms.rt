// Atoms of the base by their values, and their texts.
ghost use Rattle.std.specs.Prelude.{◌≡◌, ◌<◌, All, IfOk, length};
ghost use Rattle.ms_tree.specs.Text.{tree_text};
ghost use Rattle.ms_join.specs.Composability.{name_of};
ghost use Rattle.ms_solving.specs.Listing.{tree_of_value};
ghost use Rattle.ms_session.specs.Kept.{IsNumberOf};
ghost use Rattle.ms_session.specs.Opened.{names_of};

use crate::open_session::Open;
use crate::value_term::find_term;
use ms_base::atom_id::AtomId;
use ms_base::memory::OutOfMemory;
use ms_base::seq::{Bytes, Seq};
use ms_grammar::value::Value;
use std::alloc::Global;

impl Open {
    /// The number of the atom with a value's term, or none exactly where the base has no such atom.
    pub fn find(&self, alloc: Global, atom: &Value) -> Result<Option<AtomId>, OutOfMemory>
        requires { All (λ t. t < length self.now.terms) self.now.base }
        ensures { IfOk result (IsNumberOf (names_of self.now) (tree_of_value atom.now)) }
    {
        match find_term(alloc, &self.terms, atom)? {
            Some(term) => Ok(self.base.find(term)),
            None => Ok(None),
        }
    }

    /// The text of an atom of the base.
    pub fn atom_text(&self, alloc: Global, a: AtomId) -> Result<Bytes, OutOfMemory>
        requires named { All (λ t. t < length self.now.terms) self.now.base }
        requires within { a < length self.now.base }
        ensures { IfOk result (λ text. text ≡ tree_text (name_of (names_of self.now) a)) }
    {
        let mut text = Vec::new(alloc);
        self.terms.print(self.base.atom(a), &mut text)?;
        Ok(Seq::from_vec(text))
    }
}
