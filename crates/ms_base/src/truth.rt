/// What an external atom is set to.
#[derive(Clone, Copy, Debug, PartialEq, Eq)]
pub enum Truth {
    True,
    False,
    Free,
}

/// What assigning or releasing an atom did: nothing, exactly where the atom is no input.
#[derive(Clone, Copy, Debug, PartialEq, Eq)]
pub enum Effect {
    Done,
    NoEffect,
}
