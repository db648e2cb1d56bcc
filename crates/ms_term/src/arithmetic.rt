ghost use Rattle.std.specs.Prelude.{SomeIff};
ghost use Rattle.ms_tree.specs.Arithmetic.{IsDefined, value_of};

use ms_tree::Op;

/// The value of `a op b`, or `None` exactly where it is undefined: where the result isn't within 64
/// bits or the divisor is 0. `\` is undefined exactly where `/` is.
pub fn arith(op: Op, a: i64, b: i64) -> Option<i64>
    ensures { SomeIff result (IsDefined op a b) (value_of op a b) }
{
    match op {
        Op::Add => a.checked_add(b),
        Op::Sub => a.checked_sub(b),
        Op::Mul => a.checked_mul(b),
        Op::Div => a.checked_div(b),
        Op::Rem => a.checked_rem(b),
    }
}
