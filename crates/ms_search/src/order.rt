ghost use Rattle.std.specs.Prelude.{◌≢◌, AllPairs};
ghost use Rattle.std.specs.List.Sorted.{IsPermutation};
ghost use Rattle.ms_nogood.specs.Theories.{AreRising};

use ms_lits::Lit;

/// Literals of different variables in rising order.
pub(crate) fn in_order(mut lits: Vec<Lit>) -> Vec<Lit>
    requires { AllPairs (λ l m. l.var ≢ m.var) lits.items }
    ensures permutation { IsPermutation lits.items result.items }
    ensures rising { AreRising result.items }
{
    put_in_order(lits.as_mut_slice());
    lits
}

fn put_in_order(lits: &mut [Lit])
    requires { AllPairs (λ l m. l.var ≢ m.var) lits.old }
    ensures permutation { IsPermutation lits.old lits.new }
    ensures rising { AreRising lits.new }
{
    lits.sort_unstable_by_key(|lit| lit.var);
}
