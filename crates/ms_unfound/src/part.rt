use ms_base::seq::Seq;
use ms_lits::Numbers;

/// Places in the list of the atoms of a part.
pub(crate) type Places = Seq<usize>;

/// A rule whose head is an atom of a part.
#[derive(Debug, Drop)]
pub(crate) struct Support {
    /// The place of the head.
    pub head: usize,
    /// The variable of the body.
    pub body: u32,
    /// The places of those positive atoms that are in the component of the head.
    pub inner: Places,
}

/// What is kept of a module: the atoms of its cyclic components.
#[derive(Debug, Drop)]
pub(crate) struct Part {
    /// The variables of the atoms.
    pub atoms: Numbers,
    /// The number of the component of each atom.
    pub numbers: Numbers,
    /// The rules with these atoms as heads.
    pub supports: Seq<Support>,
}
