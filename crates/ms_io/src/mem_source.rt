ghost use Rattle.std.specs.Prelude.{◌≡◌, ◌<◌, ◌≤◌, ◌↔◌, ◌++◌, length, take, drop, Some, IsErr, IfOk, OnOk, OnErr, Contains};
ghost use Rattle.ms_io.specs.Faults.{Rose};
ghost use Rattle.ms_io.specs.MemSource.{moved_count, after_move, after_fault};
ghost use Rattle.ms_io.specs.Streams.{Moves, IsAtEnd};

use crate::failed::Failed;
use crate::source::Source;
use std::marker::Model;

/// A source over bytes in memory, whose calls fail as planned. It gives its bytes in order, at most
/// so many in one call.
#[derive(Debug, Drop)]
pub struct MemSource {
    bytes: Vec<u8>,
    given: usize,
    chunk: usize,
    fails: Vec<u64>,
    calls: u64,
    faults: u64,
}

impl Model for MemSource {
    ghost use Rattle.std.specs.Prelude.{◌≤◌, length, drop};
    ghost use Rattle.ms_io.specs.MemSource.{SourceState};

    ghost Value = { SourceState };

    ghost view = { λ s. record {
      left = drop s.given s.bytes.items;
      chunk = s.chunk;
      fails = s.fails.items;
      calls = s.calls;
      faults = s.faults;
    } };

    ghost invariant = { λ s. (s.given ≤ length s.bytes.items) × (1 ≤ s.chunk) };
}

impl MemSource {
    /// A source of these bytes, which gives at most `chunk` of them in a call. The calls whose
    /// numbers, counted from 0, are in `fails` will fail.
    pub fn new(bytes: Vec<u8>, chunk: usize, fails: Vec<u64>) -> Self
        requires { 1 ≤ chunk }
        ensures { result ≡ record {
          left = bytes.items;
          chunk = chunk;
          fails = fails.items;
          calls = 0;
          faults = 0;
        } }
    {
        MemSource {
            bytes,
            given: 0,
            chunk,
            fails,
            calls: 0,
            faults: 0,
        }
    }

    /// How many calls failed. The count stops at its greatest value.
    pub fn faults(&self) -> u64
        ensures { result ≡ self.now.faults }
    {
        self.faults
    }
}

impl Source for MemSource {
    ghost left = { λ s. Some s.left };

    ghost faults = { λ s. s.faults };

    fn take(&mut self, buffer: &mut [u8]) -> Result<usize, Failed>
        // A call fails just where its number is planned for it.
        ensures fails { IsErr result ↔ Contains self.old.fails self.old.calls }
        ensures fault { OnErr result (self.new ≡ after_fault self.old) }
        ensures untouched { OnErr result (buffer.new ≡ buffer.old) }

        // Else it moves as many bytes as may go.
        ensures count { IfOk result (λ n. n ≡ moved_count self.old (length buffer.old)) }
        ensures front { IfOk result (λ n. buffer.new ≡ take n self.old.left ++ drop n buffer.old) }
        ensures after { IfOk result (λ n. self.new ≡ after_move self.old n) }

        // What each source promises.
        ensures counts { self.old.faults ≤ self.new.faults }
        ensures quiet { OnOk result (self.new.faults ≡ self.old.faults) }
        ensures failed { OnErr result (Rose self.old.faults self.new.faults) }
        ensures stays { OnErr result (Some self.new.left ≡ Some self.old.left) }
        ensures within { IfOk result (λ n. n ≤ length buffer.old) }
        ensures moved { IfOk result (λ n. Moves (Some self.old.left) n buffer.new (Some self.new.left)) }
        ensures end { IfOk result (λ n. n ≡ 0 → 0 < length buffer.old → IsAtEnd (Some self.old.left)) }
    {
        let fails = self.fails.contains(&self.calls);
        self.calls = self.calls.saturating_add(1);
        if fails {
            self.faults = self.faults.saturating_add(1);
            return Err(Failed);
        }
        let left = &self.bytes[self.given..];
        let count = self.chunk.min(left.len()).min(buffer.len());
        buffer[..count].copy_from_slice(&left[..count]);
        self.given += count;
        Ok(count)
    }
}

#[cfg(test)]
mod tests {
    use super::*;
    use crate::transcript::takes;
    use std::test::Fail;

    #[test]
    fn gives_its_bytes_in_order(rt: HostRuntime) -> Result<(), Fail> {
        let alloc = rt.alloc();
        let rows: [(usize, &[u64], usize, usize, &[u8], u64); 5] = [
            (3, &[1], 4, 6, b"abc|!|def|g|||", 1),
            (10, &[0, 2], 2, 7, b"!|ab|!|cd|ef|g||", 2),
            (10, &[], 10, 2, b"abcdefg||", 0),
            (1, &[5, 3], 10, 6, b"a|b|c|!|d|!|", 2),
            (2, &[7], 0, 2, b"||", 0),
        ];
        for (chunk, fails, room, calls, want, faults) in rows {
            assert!(rt; chunk >= 1);
            let bytes = b"abcdefg".to_vec(alloc)?;
            let mut source = MemSource::new(bytes, chunk, fails.to_vec(alloc)?);
            let seen = takes(alloc, &mut source, room, calls)?;
            assert_eq!(rt; seen.as_slice(), want, "chunks of {chunk}, room for {room}");
            assert_eq!(rt;
                source.faults(),
                faults,
                "chunks of {chunk}, room for {room}"
            );
        }
        Ok(())
    }

    #[test]
    fn counts_stop(rt: HostRuntime) -> Result<(), Fail> {
        let alloc = rt.alloc();
        let mut source = MemSource {
            bytes: b"ab".to_vec(alloc)?,
            given: 0,
            chunk: 1,
            fails: [u64::MAX].to_vec(alloc)?,
            calls: u64::MAX - 1,
            faults: u64::MAX - 1,
        };
        let seen = takes(alloc, &mut source, 1, 4)?;
        assert_eq!(rt; seen.as_slice(), b"a|!|!|!|".as_slice());
        assert_eq!(rt; source.faults(), u64::MAX);
        Ok(())
    }
}
