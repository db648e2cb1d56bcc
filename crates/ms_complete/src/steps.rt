// Laws of the completion, as the contracts of functions that do nothing.
ghost use Rattle.ms_complete.specs.Steps.{StartCompletes, AssignCompletes, ReleaseCompletes};

/// No things and no nogoods are those of the join of no modules.
pub fn start_completes()
    ensures { StartCompletes }
{}

/// Where an input is assigned, the completion stays.
pub fn assign_completes()
    ensures { AssignCompletes }
{}

/// Where an input is released, the completion has one nogood more, that the atom is true.
pub fn release_completes()
    ensures { ReleaseCompletes }
{}
