// The order of two terms of a table.
ghost use Rattle.std.specs.Prelude.{◌≡◌, ℕ, ◌<◌, length};
ghost use Rattle.std.specs.declared.cmp.Ordering.TheVariants.{Equal};
ghost use Rattle.ms_tree.specs.Tree.{function};
ghost use Rattle.ms_tree.specs.Order.{compare_trees, compare_all};
ghost use Rattle.ms_term.specs.Comparing.{IsComparison};
ghost use Rattle.ms_term.specs.Terms.{term_at, terms_at, AllBelow, AllDifferent};

use crate::shape::Shape;
use crate::term_id::TermId;
use crate::terms::Terms;
use std::cmp::Ordering;

/// What is known of the order of two terms.
#[derive(Clone, Copy)]
pub(crate) enum Comparison {
    Decided(Ordering),
    /// It is the order of these two arguments.
    Arguments(TermId, TermId),
}

impl Terms {
    /// The order of two terms. It takes no memory, however deep they are: equal terms have equal names,
    /// so only the first arguments that differ are looked into.
    pub fn compare(&self, a: TermId, b: TermId) -> Ordering
        requires a_within { a < length self.now }
        requires b_within { b < length self.now }
        ensures { result ≡ compare_trees (term_at self.now a) (term_at self.now b) }
    {
        let mut one = a;
        let mut other = b;
        loop {
            match self.compare_tops(one, other) {
                Comparison::Decided(order) => return order,
                Comparison::Arguments(argument, other_argument) => {
                    one = argument;
                    other = other_argument;
                }
            }
        }
    }

    fn compare_tops(&self, a: TermId, b: TermId) -> Comparison
        requires a_within { a < length self.now }
        requires b_within { b < length self.now }
        ensures { IsComparison self.now a (compare_trees (term_at self.now a) (term_at self.now b)) result }
    {
        match (self.shape(a), self.shape(b)) {
            (Shape::Number(m), Shape::Number(n)) => Comparison::Decided(m.cmp(&n)),
            (Shape::Number(_), _) => Comparison::Decided(Ordering::Less),
            (_, Shape::Number(_)) => Comparison::Decided(Ordering::Greater),
            (Shape::Text(bytes), Shape::Text(others)) => Comparison::Decided(bytes.cmp(others)),
            (Shape::Text(_), _) => Comparison::Decided(Ordering::Less),
            (_, Shape::Text(_)) => Comparison::Decided(Ordering::Greater),
            (
                Shape::Function {
                    name,
                    arguments,
                    ..
                },
                Shape::Function {
                    name: other_name,
                    arguments: others,
                    ..
                },
            ) => match arguments
                .len()
                .cmp(&others.len())
                .then(name.cmp(other_name))
            {
                Ordering::Equal => self.compare_arguments(arguments, others),
                differ => Comparison::Decided(differ),
            },
        }
    }

    // Of two lists of arguments that are equally long.
    fn compare_arguments(&self, arguments: &[TermId], others: &[TermId]) -> Comparison
        requires within { AllBelow (length self.now) arguments.now }
        requires others_within { AllBelow (length self.now) others.now }
        requires equally_long { length arguments.now ≡ length others.now }
        ensures { (n : ℕ) → AllBelow n arguments.now
            → IsComparison self.now n (compare_all (terms_at self.now arguments.now) (terms_at self.now others.now)) result }
    {
        // The table says that equal terms have equal names.
        let _ = self.len();
        let mut rest = arguments;
        let mut others_rest = others;
        while let [first, after @ ..] = rest {
            let [other, others_after @ ..] = others_rest else {
                break;
            };
            if first != other {
                return Comparison::Arguments(*first, *other);
            }
            rest = after;
            others_rest = others_after;
        }
        Comparison::Decided(Ordering::Equal)
    }
}
