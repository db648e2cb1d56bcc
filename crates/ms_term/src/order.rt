// Names of terms, in the order of their terms.
ghost use Rattle.std.specs.Prelude.{◌≡◌, ◌<◌, All, length, map};
ghost use Rattle.std.specs.Cmp.Lexicographic.{slice_cmp};
ghost use Rattle.ms_tree.specs.Order.{compare_trees};
ghost use Rattle.ms_term.specs.Terms.{term_at, number_in};
ghost use Rattle.ms_term.specs.TermOrder.{IsInTermOrder};

use crate::term_id::TermId;
use crate::terms::Terms;
use ms_base::seq::Seq;
use std::cmp::Ordering;

/// The order of two terms, where a number that names nothing stands for 0.
pub fn compare(terms: &Terms, a: TermId, b: TermId) -> Ordering
    ensures { result ≡ compare_trees (term_at terms.now a) (term_at terms.now b) }
{
    let len = terms.len();
    if a.0 < len && b.0 < len {
        return terms.compare(a, b);
    }
    match (integer(terms, a), integer(terms, b)) {
        (Some(m), Some(n)) => m.cmp(&n),
        (Some(_), None) => Ordering::Less,
        (None, _) => Ordering::Greater,
    }
}

/// The integer, or `None` exactly where the term is none. A number that names nothing stands for 0.
fn integer(terms: &Terms, t: TermId) -> Option<i64>
    ensures { result ≡ number_in (term_at terms.now t) }
{
    if t.0 < terms.len() {
        terms.number_of(t)
    } else {
        Some(0)
    }
}

/// The order of two lists of terms: the first that differ decide, and else the shorter list comes first.
pub fn compare_lists(terms: &Terms, one: &[TermId], other: &[TermId]) -> Ordering
    ensures { result ≡ slice_cmp compare_trees
        (map (term_at terms.now) one.now) (map (term_at terms.now) other.now) }
{
    let mut rest = one;
    let mut other_rest = other;
    while let [first, after @ ..] = rest {
        let [other_first, other_after @ ..] = other_rest else {
            return Ordering::Greater;
        };
        match compare(terms, *first, *other_first) {
            Ordering::Equal => {}
            differ => return differ,
        }
        rest = after;
        other_rest = other_after;
    }
    if other_rest.is_empty() {
        Ordering::Equal
    } else {
        Ordering::Less
    }
}

/// The names in the order of their terms, each once.
pub fn in_term_order(terms: &Terms, mut names: Vec<TermId>) -> Seq<TermId>
    requires { All (λ n. n < length terms.now) names.items }
    ensures { IsInTermOrder terms.now names.items result }
{
    // The table says that equal terms have equal names.
    let _ = terms.len();
    names.sort_unstable_by(|a, b| compare(terms, *a, *b));
    names.dedup();
    Seq::from_vec(names)
}
