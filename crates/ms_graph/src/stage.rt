ghost use Rattle.std.specs.Prelude.{◌≡◌};
ghost use Rattle.ms_graph.specs.Stages.{IsClosed};
ghost use Rattle.ms_graph.specs.declared.stage.Stage.TheVariants.{Closed};

/// How far the search is with a node.
#[derive(Clone, Copy)]
pub(crate) enum Stage {
    /// Not entered yet.
    New,
    /// On the stack, in this place.
    Open(u32),
    /// In the component with this number.
    Closed(u32),
}

impl Stage {
    /// The number of a closed node.
    pub(crate) fn number(self) -> u32
        requires { IsClosed self }
        ensures { self ≡ Closed result }
    {
        match self {
            Stage::Closed(number) => number,
            Stage::New | Stage::Open(_) => unreachable!(),
        }
    }
}
