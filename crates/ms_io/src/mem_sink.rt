ghost use Rattle.std.specs.Prelude.{◌≡◌, ◌-◌, ◌<◌, ◌≤◌, ◌↔◌, ◌⊎◌, [], length, Some, None, IsErr, IsOk, IfOk, OnOk, OnErr, Contains};
ghost use Rattle.ms_io.specs.Faults.{Rose};
ghost use Rattle.ms_io.specs.MemSink.{after_put, after_refusal};
ghost use Rattle.ms_io.specs.Streams.{Adds, AddsFront};

use crate::failed::Failed;
use crate::sink::Sink;
use ms_base::memory::OutOfMemory;
use std::alloc::Global;
use std::marker::Model;

/// A sink that holds its bytes in memory, up to a limit, and whose calls fail as planned. It doesn't tell its pieces.
#[derive(Debug, Drop)]
pub struct MemSink {
    bytes: Vec<u8>,
    room: usize,
    fails: Vec<u64>,
    calls: u64,
    faults: u64,
}

impl Model for MemSink {
    ghost use Rattle.std.specs.Prelude.{◌≤◌, length, vec_capacity};
    ghost use Rattle.ms_io.specs.MemSink.{SinkState};

    ghost Value = { SinkState };

    ghost view = { λ s. record {
      held = s.bytes.items;
      room = s.room;
      fails = s.fails.items;
      calls = s.calls;
      faults = s.faults;
    } };

    ghost invariant = { λ s. (length s.bytes.items ≤ s.room) × (s.room ≤ vec_capacity s.bytes) };
}

impl MemSink {
    /// An empty sink with room for `room` bytes, whose memory it takes here. The calls whose numbers,
    /// counted from 0, are in `fails` will fail.
    pub fn new(alloc: Global, room: usize, fails: Vec<u64>) -> Result<Self, OutOfMemory>
        ensures ok { IfOk result (λ sink. sink ≡ record {
          held = [];
          room = room;
          fails = fails.items;
          calls = 0;
          faults = 0;
        }) }
        ensures succeeds { room ≡ 0 → IsOk result }
    {
        Ok(MemSink {
            bytes: Vec::with_capacity(alloc, room)?,
            room,
            fails,
            calls: 0,
            faults: 0,
        })
    }

    /// The bytes that it holds.
    pub fn bytes(&self) -> &[u8]
        ensures { result.now ≡ self.now.held }
    {
        self.bytes.as_slice()
    }

    /// How many calls failed. The count stops at its greatest value.
    pub fn faults(&self) -> u64
        ensures { result ≡ self.now.faults }
    {
        self.faults
    }
}

impl Sink for MemSink {
    ghost held = { λ s. Some s.held };

    ghost pieces = { λ _. None };

    ghost faults = { λ s. s.faults };

    fn put(&mut self, piece: &[u8]) -> Result<(), Failed>
        // A call fails just where its number is planned for it, or the piece has no room.
        ensures fails { IsErr result ↔ (Contains self.old.fails self.old.calls
            ⊎ (self.old.room - length self.old.held < length piece.now)) }
        ensures fault { OnErr result (self.new ≡ after_refusal self.old) }
        ensures after { OnOk result (self.new ≡ after_put self.old piece.now) }

        // What each sink promises.
        ensures counts { self.old.faults ≤ self.new.faults }
        ensures quiet { OnOk result (self.new.faults ≡ self.old.faults) }
        ensures failed { OnErr result (Rose self.old.faults self.new.faults) }
        ensures added { OnOk result (Adds (Some self.old.held) piece.now (Some self.new.held)) }
        ensures front { OnErr result (AddsFront (Some self.old.held) piece.now (Some self.new.held)) }
    {
        let fails = self.fails.contains(&self.calls);
        self.calls = self.calls.saturating_add(1);
        if fails || self.room - self.bytes.len() < piece.len() {
            self.faults = self.faults.saturating_add(1);
            return Err(Failed);
        }
        // The memory for all of the room was taken before, so that this adds the piece.
        if self.bytes.extend_from_slice(piece).is_err() {
            unreachable!();
        }
        Ok(())
    }
}

#[cfg(test)]
mod tests {
    use super::*;
    use crate::transcript::puts;
    use std::test::Fail;

    #[test]
    fn holds_what_has_room(rt: HostRuntime) -> Result<(), Fail> {
        let alloc = rt.alloc();
        let rows: [(usize, &[u64], &[&str], &[u8], &[u8], u64); 4] = [
            (
                5,
                &[1],
                &["ab", "c", "defg", "def", "", "x"],
                b".!!..!",
                b"abdef",
                3,
            ),
            (0, &[0], &["", "", "a"], b"!.!", b"", 2),
            (3, &[], &["abcd", "abc"], b"!.", b"abc", 1),
            (9, &[2, 0], &["a", "b", "c", "d"], b"!.!.", b"bd", 2),
        ];
        for (room, fails, pieces, want, held, faults) in rows {
            let mut sink = MemSink::new(alloc, room, fails.to_vec(alloc)?)?;
            let seen = puts(alloc, &mut sink, pieces)?;
            assert_eq!(rt; seen.as_slice(), want, "room for {room}");
            assert_eq!(rt; sink.bytes(), held, "room for {room}");
            assert_eq!(rt; sink.faults(), faults, "room for {room}");
        }
        Ok(())
    }

    #[test]
    fn counts_stop(rt: HostRuntime) -> Result<(), Fail> {
        let alloc = rt.alloc();
        let mut sink = MemSink {
            bytes: Vec::with_capacity(alloc, 4)?,
            room: 4,
            fails: [u64::MAX].to_vec(alloc)?,
            calls: u64::MAX - 1,
            faults: u64::MAX - 1,
        };
        let seen = puts(alloc, &mut sink, &["a", "b", "c", "d"])?;
        assert_eq!(rt; seen.as_slice(), b".!!!".as_slice());
        assert_eq!(rt; sink.bytes(), b"a".as_slice());
        assert_eq!(rt; sink.faults(), u64::MAX);
        Ok(())
    }
}
