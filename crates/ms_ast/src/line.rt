// The lines of the grammar of terms.
ghost use Rattle.std.specs.Prelude.{◌≡◌, IsTrue, nat_le};
ghost use Rattle.ms_ast.specs.Terms.{depth};

/// A line of the grammar of terms, from the outermost to the innermost.
#[derive(Clone, Copy)]
pub(crate) enum Line {
    Interval,
    Sum,
    Product,
    Unary,
    Primary,
}

impl Line {
    /// Whether a term of this line may stand where the other one is wanted.
    pub fn may_stand_at(self, wanted: Line) -> bool
        ensures { result ≡ nat_le (depth wanted) (depth self) }
    {
        wanted.depth() <= self.depth()
    }

    fn depth(self) -> u8
        ensures { result ≡ depth self }
    {
        match self {
            Line::Interval => 0,
            Line::Sum => 1,
            Line::Product => 2,
            Line::Unary => 3,
            Line::Primary => 4,
        }
    }
}
