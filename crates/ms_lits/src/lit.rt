ghost use Rattle.std.specs.Prelude.{◌≡◌};
ghost use Rattle.ms_lits.specs.Literals.{opposite_of};

use ms_base::seq::Seq;

/// A literal: a variable, and the truth that it has where the literal holds.
#[derive(Clone, Copy, Debug, Default, PartialEq, Eq, PartialOrd, Ord)]
pub struct Lit {
    pub var: u32,
    pub truth: bool,
}

/// Literals, as those of a nogood.
pub type Lits = Seq<Lit>;

/// Numbers of things.
pub type Numbers = Seq<u32>;

/// Answer sets, each as the numbers of its true atoms.
pub type Answers = Seq<Numbers>;

impl Lit {
    /// The literal that holds where this one doesn't.
    pub fn opposite(self) -> Lit
        ensures { result ≡ opposite_of self }
    {
        Lit {
            var: self.var,
            truth: !self.truth,
        }
    }
}
