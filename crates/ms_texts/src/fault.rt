// Why a text isn't added.
use ms_base::memory::OutOfMemory;
use std::error::Error;
use std::fmt;

/// Why a text isn't added.
#[derive(Clone, Copy, Debug, PartialEq, Eq)]
pub enum TextFault {
    /// The text defines a constant a second time, for the first time in this line.
    ConstTwice { line: u64 },
    OutOfMemory,
}

impl fmt::Display for TextFault {
    fn fmt<W: fmt::Write>(&self, f: &mut fmt::Formatter<W>) -> fmt::Result {
        match self {
            TextFault::ConstTwice { line } => {
                write!(f, "a constant is defined again in line {line}")
            }
            TextFault::OutOfMemory => f.write_str("out of memory"),
        }
    }
}

impl Error for TextFault {}

impl From<OutOfMemory> for TextFault {
    ghost use Rattle.std.specs.Prelude.{◌≡◌};
    ghost use Rattle.ms_texts.specs.declared.fault.TextFault.TheVariants.{OutOfMemory};

    ghost from_gives = { λ _ fault. fault ≡ OutOfMemory };

    fn from(_e: OutOfMemory) -> TextFault {
        TextFault::OutOfMemory
    }
}
