use ms_term::OutOfMemory;
use std::alloc::AllocFailed;
use std::error::Error;
use std::fmt;

/// Why there are no instances.
#[derive(Clone, Copy, Debug, PartialEq, Eq)]
pub enum InstanceFault {
    /// The rules have more copies than there may be.
    TooMany,
    OutOfMemory,
}

impl fmt::Display for InstanceFault {
    fn fmt<W: fmt::Write>(&self, f: &mut fmt::Formatter<W>) -> fmt::Result {
        match self {
            InstanceFault::TooMany => f.write_str("too many copies"),
            InstanceFault::OutOfMemory => f.write_str("out of memory"),
        }
    }
}

impl Error for InstanceFault {}

impl From<OutOfMemory> for InstanceFault {
    ghost use Rattle.std.specs.Prelude.{◌≡◌};
    ghost use Rattle.ms_instances.specs.declared.fault.InstanceFault.TheVariants.{OutOfMemory};

    ghost from_gives = { λ _ fault. fault ≡ OutOfMemory };

    fn from(_: OutOfMemory) -> InstanceFault {
        InstanceFault::OutOfMemory
    }
}

impl<T: Drop> From<AllocFailed<T>> for InstanceFault {
    ghost use Rattle.std.specs.Prelude.{◌≡◌};
    ghost use Rattle.ms_instances.specs.declared.fault.InstanceFault.TheVariants.{OutOfMemory};

    ghost from_gives = { λ _ fault. fault ≡ OutOfMemory };

    fn from(_: AllocFailed<T>) -> InstanceFault {
        InstanceFault::OutOfMemory
    }
}
