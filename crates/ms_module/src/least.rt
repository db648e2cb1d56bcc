// The least of atoms in the order of their terms.
ghost use Rattle.std.specs.Prelude.{◌≡◌, ◌<◌, [], All, Contains, MatchOption, length};
ghost use Rattle.ms_tree.specs.Order.{compare_trees};
ghost use Rattle.ms_join.specs.Composability.{IsLeast, name_of};
ghost use Rattle.ms_module.specs.Names.{names_of, IsLesser};

use ms_atombase::AtomBase;
use ms_base::atom_id::AtomId;
use ms_term::Terms;
use std::cmp::Ordering;

/// The least of the atoms by their terms, or none exactly where there are no atoms.
pub(crate) fn least(terms: &Terms, base: &AtomBase, atoms: &[AtomId]) -> Option<AtomId>
    requires named { All (λ t. t < length terms.now) base.now }
    requires within { All (λ a. a < length base.now) atoms.now }
    ensures { MatchOption result (atoms.now ≡ []) (IsLeast (names_of terms.now base.now) (Contains atoms.now)) }
{
    let mut best = *atoms.first()?;
    for a in atoms {
        best = lesser(terms, base, *a, best);
    }
    Some(best)
}

/// The first atom where its term is less, and else the second.
fn lesser(terms: &Terms, base: &AtomBase, a: AtomId, b: AtomId) -> AtomId
    requires named { All (λ t. t < length terms.now) base.now }
    requires a_within { a < length base.now }
    requires b_within { b < length base.now }
    ensures { IsLesser (names_of terms.now base.now) a b result }
{
    match terms.compare(base.atom(a), base.atom(b)) {
        Ordering::Less => a,
        Ordering::Equal | Ordering::Greater => b,
    }
}
