ghost use Rattle.std.specs.Prelude.{◌≡◌, ◌∷◌, [], ◌<◌, IfOk, length};

use ms_atombase::{AtomBase, AtomId, TermId};
use ms_base::memory::OutOfMemory;
use ms_term::Terms;
use std::alloc::Global;
use std::test::Fail;

/// Whether a base of one atom has a large one.
fn is_large(alloc: Global, terms: &Terms, atom: TermId) -> Result<bool, OutOfMemory>
    requires { atom < length terms.now }
{
    Ok(base_of(alloc, atom)?.has_large(terms))
}

fn base_of(alloc: Global, atom: TermId) -> Result<AtomBase, OutOfMemory>
    ensures { IfOk result (λ base. base ≡ atom ∷ []) }
{
    let mut base = AtomBase::new(alloc);
    base.intern(atom)?;
    Ok(base)
}

#[test]
fn atoms_keep_their_places(rt: HostRuntime) -> Result<(), Fail> {
    let mut base = AtomBase::new(rt.alloc());
    assert!(rt; base.is_empty(), "a new base");
    let first = base.intern(TermId(7))?;
    let mark = base.mark();
    let second = base.intern(TermId(3))?;
    let again = base.intern(TermId(7))?;
    assert_eq!(rt; first, AtomId(0), "the first atom");
    assert_eq!(rt; second, AtomId(1), "the second atom");
    assert_eq!(rt; again, AtomId(0), "an atom that is there");
    assert_eq!(rt; base.len(), 2, "two atoms");
    assert_eq!(rt; base.atom(second), TermId(3), "the term of an atom");
    assert_eq!(rt;
        base.find(TermId(3)),
        Some(AtomId(1)),
        "an atom that is found"
    );
    base.back_to(mark);
    assert_eq!(rt; base.find(TermId(3)), None, "an atom that is gone");
    assert_eq!(rt;
        base.find(TermId(7)),
        Some(AtomId(0)),
        "an atom that stayed"
    );
    Ok(())
}

#[test]
fn large_atoms(rt: HostRuntime) -> Result<(), Fail> {
    let mut terms = Terms::new(rt.alloc());
    let mut last = terms.function(b"a", &[])?;
    for _ in 1..2000 {
        assert!(rt; last.0 < terms.len());
        last = terms.function(b"s", &[last])?;
    }
    assert!(rt; last.0 < terms.len());
    let large = terms.function(b"s", &[last])?;
    assert!(rt; last.0 < terms.len());
    assert!(rt; !is_large(rt.alloc(), &terms, last)?, "2,000 symbols");
    assert!(rt; is_large(rt.alloc(), &terms, large)?, "2,001 symbols");
    Ok(())
}
