ghost use Rattle.std.specs.Prelude.{None, IsOk};

use crate::failed::Failed;
use crate::sink::Sink;

/// A sink that drops what it is given. It never fails.
#[derive(Clone, Copy, Debug, PartialEq, Eq)]
pub struct NoSink;

impl Sink for NoSink {
    ghost held = { λ _. None };

    ghost pieces = { λ _. None };

    ghost faults = { λ _. 0 };

    fn put(&mut self, piece: &[u8]) -> Result<(), Failed>
        ensures { IsOk result }
    {
        let _ = piece;
        Ok(())
    }
}

#[cfg(test)]
mod tests {
    use super::*;
    use crate::transcript::puts;
    use std::test::Fail;

    #[test]
    fn takes_each_piece(rt: HostRuntime) -> Result<(), Fail> {
        let seen = puts(rt.alloc(), &mut NoSink, &["a", "", "bc"])?;
        assert_eq!(rt; seen.as_slice(), b"...".as_slice());
        Ok(())
    }
}
