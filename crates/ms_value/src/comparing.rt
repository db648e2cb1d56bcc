// Comparisons of terms by their order.
ghost use Rattle.std.specs.Prelude.{◌≡◌, ◌<◌, length, Some};
ghost use Rattle.ms_tree.specs.Tree.{number};
ghost use Rattle.ms_grammar.specs.Terms.{both};
ghost use Rattle.ms_term.specs.Terms.{term_at};
ghost use Rattle.ms_copies.specs.Evaluating.{integer, value, allows, compares};

use crate::integers::integer;
use ms_core::rule::{Cmp, Test};
use ms_term::{TermId, Terms};
use std::cmp::Ordering;

/// Whether a comparison holds of two terms.
pub fn holds(terms: &Terms, cmp: Cmp, a: TermId, b: TermId) -> bool
    requires a_within { a < length terms.now }
    requires b_within { b < length terms.now }
    ensures { result ≡ compares cmp (term_at terms.now a) (term_at terms.now b) }
{
    allows(cmp, terms.compare(a, b))
}

/// Whether a comparison holds of two integers, or `None` exactly where one of its sides has no integer as its
/// value. It needs no table of terms.
pub fn integers_hold(test: &Test, chosen: &[i64]) -> Option<bool>
    ensures { result ≡ both (λ a b. Some (compares test.now.cmp (number a) (number b))) (integer (value chosen.now test.now.left)) (integer (value chosen.now test.now.right)) }
{
    let left = integer(&test.left, chosen)?;
    let right = integer(&test.right, chosen)?;
    Some(allows(test.cmp, left.cmp(&right)))
}

/// Whether a comparison holds of two terms in this order.
fn allows(cmp: Cmp, order: Ordering) -> bool
    ensures { result ≡ allows cmp order }
{
    match cmp {
        Cmp::Eq => order.is_eq(),
        Cmp::Ne => order.is_ne(),
        Cmp::Lt => order.is_lt(),
        Cmp::Le => order.is_le(),
        Cmp::Gt => order.is_gt(),
        Cmp::Ge => order.is_ge(),
    }
}
