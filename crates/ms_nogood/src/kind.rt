ghost use Rattle.std.specs.Prelude.{◌≡◌};
ghost use Rattle.ms_nogood.specs.Store.{ends_with_solve};

/// What a nogood is kept for.
#[derive(Clone, Copy, Debug, PartialEq, Eq)]
pub enum Kind {
    /// It belongs to the program.
    Base,
    /// It was learned and is kept from solve to solve.
    Kept,
    /// It was learned for the present solve.
    Temporary,
    /// A theory gave it for the present solve.
    Reason,
}

impl Kind {
    /// Whether the end of a solve drops nogoods of this kind.
    pub fn ends_with_solve(self) -> bool
        ensures { result ≡ ends_with_solve self }
    {
        match self {
            Kind::Base | Kind::Kept => false,
            Kind::Temporary | Kind::Reason => true,
        }
    }
}
