ghost use Rattle.std.specs.Prelude.{◌≡◌, ◌<◌, ◌≤◌, ◌++◌, length, take, drop, min, replicate, Some, IsOk, IfOk, OnErr};
ghost use Rattle.ms_io.specs.Streams.{Moves, IsAtEnd};

use crate::failed::Failed;
use crate::source::Source;
use std::marker::Model;

/// A source that gives one byte so often. It never fails. Contracts see it as the bytes that are left.
#[derive(Debug, Drop)]
pub struct RepeatSource {
    byte: u8,
    left: u64,
}

impl Model for RepeatSource {
    ghost use Rattle.std.specs.Prelude.{ℕ, List, replicate};

    ghost Value = { List ℕ };

    ghost view = { λ s. replicate s.left s.byte };
}

impl RepeatSource {
    /// A source that gives the byte `left` times.
    pub fn new(byte: u8, left: u64) -> Self
        ensures { result ≡ replicate left byte }
    {
        RepeatSource { byte, left }
    }
}

impl Source for RepeatSource {
    ghost left = { λ s. Some s };

    ghost faults = { λ _. 0 };

    fn take(&mut self, buffer: &mut [u8]) -> Result<usize, Failed>
        ensures fails { IsOk result }

        // It moves as many bytes as may go.
        ensures count { IfOk result (λ n. n ≡ min (length self.old) (length buffer.old)) }
        ensures front { IfOk result (λ n. buffer.new ≡ take n self.old ++ drop n buffer.old) }
        ensures after { IfOk result (λ n. self.new ≡ drop n self.old) }

        // What each source promises.
        ensures within { IfOk result (λ n. n ≤ length buffer.old) }
        ensures moved { IfOk result (λ n. Moves (Some self.old) n buffer.new (Some self.new)) }
        ensures end { IfOk result (λ n. n ≡ 0 → 0 < length buffer.old → IsAtEnd (Some self.old)) }
    {
        let count = moved_count(self.left, buffer.len());
        buffer[..count].fill(self.byte);
        self.left -= count as u64;
        Ok(count)
    }
}

/// How many of the bytes that are left a buffer has room for.
fn moved_count(left: u64, room: usize) -> usize
    ensures { result ≡ min left room }
{
    match usize::try_from(left) {
        Ok(left) => left.min(room),
        Err(_) => room,
    }
}

#[cfg(test)]
mod tests {
    use super::*;
    use crate::transcript::takes;
    use std::test::Fail;

    #[test]
    fn gives_its_byte(rt: HostRuntime) -> Result<(), Fail> {
        let alloc = rt.alloc();
        let rows: [(u64, usize, usize, &[u8]); 4] = [
            (5, 2, 4, b"xx|xx|x||"),
            (2, 9, 2, b"xx||"),
            (0, 3, 1, b"|"),
            (3, 0, 2, b"||"),
        ];
        for (left, room, calls, want) in rows {
            let mut source = RepeatSource::new(b'x', left);
            let seen = takes(alloc, &mut source, room, calls)?;
            assert_eq!(rt; seen.as_slice(), want, "{left} bytes, room for {room}");
        }
        Ok(())
    }
}
