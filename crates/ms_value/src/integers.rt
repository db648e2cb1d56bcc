// The integers that terms are. They need no table of terms.
ghost use Rattle.std.specs.Prelude.{◌≡◌, Some};
ghost use Rattle.ms_grammar.specs.Terms.{both};
ghost use Rattle.ms_copies.specs.Evaluating.{operate, absolute, integer, value};

use ms_core::pattern::Pattern;
use ms_core::rule::Range;
use ms_term::{Op, arith};

/// The integer that a term is under a choice, or `None` exactly where its value is none or isn't defined.
pub fn integer(pattern: &Pattern, chosen: &[i64]) -> Option<i64>
    ensures { result ≡ integer (value chosen.now pattern.now) }
{
    match pattern {
        Pattern::Range(number) => chosen.get(*number as usize).copied(),
        Pattern::Number(n) => Some(*n),
        Pattern::Text(_) | Pattern::Function(_, _) => None,
        Pattern::Neg(of) => operate(Op::Sub, 0, integer(of.get(), chosen)?),
        Pattern::Abs(of) => absolute(integer(of.get(), chosen)?),
        Pattern::Binary(op, left, right) => {
            let left = integer(left.get(), chosen)?;
            let right = integer(right.get(), chosen)?;
            operate(*op, left, right)
        }
    }
}

/// The two integer ends of a range under the integers chosen before, or `None` exactly where it has none.
pub fn ends(range: &Range, before: &[i64]) -> Option<(i64, i64)>
    ensures { result ≡ both (λ low high. Some (low, high)) (integer (value before.now range.now.low)) (integer (value before.now range.now.high)) }
{
    let low = integer(&range.low, before)?;
    let high = integer(&range.high, before)?;
    Some((low, high))
}

/// The result of an operation, where it is defined.
fn operate(op: Op, a: i64, b: i64) -> Option<i64>
    ensures { result ≡ operate op a b }
{
    arith(op, a, b)
}

/// The integer without its sign, where it is within 64 bits.
fn absolute(n: i64) -> Option<i64>
    ensures { result ≡ absolute n }
{
    if n < 0 {
        operate(Op::Sub, 0, n)
    } else {
        Some(n)
    }
}
