// The listing of answer sets.
ghost use Rattle.std.specs.Prelude.{◌≡◌, ◌<◌, IfOk, All, length, map};
ghost use Rattle.std.specs.List.{AllZip};
ghost use Rattle.std.specs.List.Sorted.{IsPermutation, IsSorted};
ghost use Rattle.std.specs.Cmp.Lexicographic.{slice_cmp};
ghost use Rattle.ms_tree.specs.Order.{compare_trees};
ghost use Rattle.ms_term.specs.Terms.{term_at};
ghost use Rattle.ms_join.specs.AnswerSets.{IsAtomSet};
ghost use Rattle.ms_machine.specs.Listing.{IsListing};
ghost use Rattle.ms_machine.specs.Machine.{shows_atom};
ghost use Rattle.ms_show.specs.ShownLists.{shown_of, IsShownOf, AreIn};

use ms_atombase::AtomBase;
use ms_base::memory::OutOfMemory;
use ms_base::seq::Seq;
use ms_join::ground_module::TermIds;
use ms_machine::reply::Shown;
use ms_parts::Parts;
use ms_rules::AtomSet;
use ms_term::{TermId, Terms, compare_lists, in_term_order};
use std::alloc::Global;

/// Whether the texts show the atom.
fn is_shown(terms: &Terms, parts: &Parts, atom: TermId) -> bool
    requires { atom < length terms.now }
    ensures { result ≡ shows_atom parts.now (term_at terms.now atom) }
{
    match terms.name_of(atom) {
        Some(name) => parts.shows(name, terms.args_of(atom).len()),
        None => false,
    }
}

/// The terms of those atoms of a set that are shown, in the order of the set.
fn shown_terms(
    alloc: Global,
    terms: &Terms,
    base: &AtomBase,
    parts: &Parts,
    set: &AtomSet,
) -> Result<Vec<TermId>, OutOfMemory>
    requires base { AreIn terms.now base.now }
    requires over_base { IsAtomSet (length base.now) set.now }
    ensures { IfOk result
        (λ shown. shown.items ≡ shown_of terms.now (shows_atom parts.now) base.now set.now) }
{
    let mut shown = Vec::new(alloc);
    for atom in set.as_slice() {
        let term = base.atom(*atom);
        if is_shown(terms, parts, term) {
            shown.push(term)?;
        }
    }
    Ok(shown)
}

/// The terms of those atoms of a set that are shown, in term order.
fn shown_list(
    alloc: Global,
    terms: &Terms,
    base: &AtomBase,
    parts: &Parts,
    set: &AtomSet,
) -> Result<TermIds, OutOfMemory>
    requires base { AreIn terms.now base.now }
    requires over_base { IsAtomSet (length base.now) set.now }
    ensures { IfOk result (IsShownOf terms.now (shows_atom parts.now) base.now set.now) }
{
    let shown = shown_terms(alloc, terms, base, parts, set)?;
    Ok(in_term_order(terms, shown))
}

/// One shown list for each set, at the place of the set.
fn shown_lists(
    alloc: Global,
    terms: &Terms,
    base: &AtomBase,
    parts: &Parts,
    sets: &[AtomSet],
) -> Result<Vec<TermIds>, OutOfMemory>
    requires base { AreIn terms.now base.now }
    requires over_base { All (IsAtomSet (length base.now)) sets.now }
    ensures { IfOk result
        (λ lists. AllZip (IsShownOf terms.now (shows_atom parts.now) base.now) sets.now lists.items) }
{
    let mut lists = Vec::with_capacity(alloc, sets.len())?;
    for set in sets {
        lists.push(shown_list(alloc, terms, base, parts, set)?)?;
    }
    Ok(lists)
}

/// Puts lists of terms in order. A list comes before each that it begins.
fn in_list_order(terms: &Terms, mut lists: Vec<TermIds>) -> Shown
    ensures same { IsPermutation lists.items result }
    ensures ordered { IsSorted (slice_cmp compare_trees) (map (map (term_at terms.now)) result) }
{
    lists.sort_unstable_by(|one, other| compare_lists(terms, one.as_slice(), other.as_slice()));
    Seq::from_vec(lists)
}

/// The sorted listing of sets over a base: one list for each set, of the terms of those of its atoms that the texts
/// show, in term order.
///
/// The atoms of the base are terms of the table. It fails only for want of memory.
pub fn listing(
    alloc: Global,
    terms: &Terms,
    base: &AtomBase,
    parts: &Parts,
    sets: &[AtomSet],
) -> Result<Shown, OutOfMemory>
    requires named { AreIn terms.now base.now }
    requires over_base { All (IsAtomSet (length base.now)) sets.now }
    ensures listing { IfOk result (λ shown. IsListing (shows_atom parts.now)
        (map (term_at terms.now) base.now) sets.now (map (map (term_at terms.now)) shown)) }
    ensures named { IfOk result (All (AreIn terms.now)) }
{
    let lists = shown_lists(alloc, terms, base, parts, sets)?;
    Ok(in_list_order(terms, lists))
}
