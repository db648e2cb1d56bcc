ghost use Rattle.std.specs.Prelude.{◌≡◌, IfOk};

use ms_base::memory::OutOfMemory;
use std::alloc::Global;
use std::marker::Model;

/// Room for the test of sets over a base. Contracts see it as the number of atoms of the base.
#[derive(Debug, Drop)]
pub struct Scratch {
    atoms: u32,
    pub(crate) in_set: Vec<bool>,
    pub(crate) derived: Vec<bool>,
}

impl Model for Scratch {
    ghost use Rattle.std.specs.Prelude.{ℕ, ◌≡◌, length};

    ghost Value = { ℕ };

    ghost view = { λ s. s.atoms };

    ghost invariant = { λ s. (length s.in_set.items ≡ s.atoms) × (length s.derived.items ≡ s.atoms) };
}

impl Scratch {
    /// Room for a base of so many atoms. It fails only for want of memory.
    pub fn new(alloc: Global, atoms: u32) -> Result<Scratch, OutOfMemory>
        ensures { IfOk result (λ scratch. scratch ≡ atoms) }
    {
        let count = atoms as usize;
        Ok(Scratch {
            atoms,
            in_set: vec![in alloc; false; count]?,
            derived: vec![in alloc; false; count]?,
        })
    }
}
