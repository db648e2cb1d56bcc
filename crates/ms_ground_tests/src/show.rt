ghost use Rattle.std.specs.Prelude.{◌≡◌, ◌∷◌, [], ◌<◌, IfOk, length};
ghost use Rattle.ms_join.specs.AnswerSets.{IsAtomSet};

use ms_atombase::{AtomBase, AtomId};
use ms_base::memory::OutOfMemory;
use ms_base::seq::Seq;
use ms_parts::Parts;
use ms_rules::AtomSet;
use ms_show::{listing, print};
use ms_term::{TermId, Terms};
use std::alloc::Global;
use std::test::Fail;

/// A base of one atom.
fn base_of(alloc: Global, atom: TermId) -> Result<AtomBase, OutOfMemory>
    ensures { IfOk result (λ base. base ≡ atom ∷ []) }
{
    let mut base = AtomBase::new(alloc);
    base.intern(atom)?;
    Ok(base)
}

/// The set of all atoms of a base of one atom.
fn whole_set(alloc: Global) -> Result<AtomSet, OutOfMemory>
    ensures { IfOk result (IsAtomSet 1) }
{
    let mut set = Seq::new(alloc);
    set.push(AtomId(0))?;
    Ok(set)
}

/// The lines of all sets of one atom.
fn lines(alloc: Global, terms: &Terms, atom: TermId) -> Result<Vec<u8>, OutOfMemory>
    requires { atom < length terms.now }
{
    let base = base_of(alloc, atom)?;
    let sets = [whole_set(alloc)?, Seq::new(alloc)];
    let shown = listing(alloc, terms, &base, &Parts::new(alloc), &sets)?;
    let mut text = Vec::new(alloc);
    print(terms, &shown, &mut text)?;
    Ok(text)
}

#[test]
fn sets_of_one_atom(rt: HostRuntime) -> Result<(), Fail> {
    let alloc = rt.alloc();
    let mut terms = Terms::new(alloc);
    let atom = terms.function(b"a", &[])?;
    let text = lines(alloc, &terms, atom)?;
    let wanted = b"answer:\nanswer: a\n";
    assert_eq!(rt; text.as_slice(), wanted.as_slice(), "no atom, and one");
    Ok(())
}
