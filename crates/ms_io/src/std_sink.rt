ghost use Rattle.std.specs.Prelude.{◌≡◌, ℕ, ◌<◌, ◌≤◌, length, take, None, IfOk, OnOk, OnErr};
ghost use Rattle.std.specs.Io.KnownBytes.{Appends, Keeps};
ghost use Rattle.ms_io.specs.Faults.{Rose, raised};

use crate::failed::Failed;
use crate::sink::Sink;
use crate::tries::{TRIES, is_interrupted};
use std::io::Write;
use std::marker::Model;

/// A sink over a writer, as standard output or standard error. Each piece is flushed.
#[derive(Debug, Drop)]
pub struct StdSink<W> {
    writer: W,
    faults: u64,
}

impl<W> Model for StdSink<W> {
    ghost use Rattle.ms_io.specs.StdSink.{Writes};

    ghost Value = { Writes W };

    ghost view = { λ s. record { writer = s.writer; faults = s.faults } };
}

impl<W: Write> StdSink<W> {
    pub fn new(writer: W) -> Self
        ensures { result ≡ record { writer = writer; faults = 0 } }
    {
        StdSink { writer, faults: 0 }
    }

    /// How many calls failed. The count stops at its greatest value.
    pub fn faults(&self) -> u64
        ensures { result ≡ self.now.faults }
    {
        self.faults
    }

    // Counts a fault.
    fn fault(&mut self) -> Failed
        ensures raised { self.new ≡ record self.old { faults = raised self.old.faults } }
        ensures counts { self.old.faults ≤ self.new.faults }
    {
        self.faults = self.faults.saturating_add(1);
        Failed
    }

    // Writes a front of a piece that isn't empty, and answers its length. To write nothing is a fault.
    fn write_front(&mut self, piece: &[u8]) -> Result<usize, Failed>
        ensures bytes { IfOk result (λ n. Appends (W.contents self.old.writer)
            (W.contents self.new.writer) (take n piece.now)) }
        ensures kept { OnErr result (Keeps (W.contents self.old.writer) (W.contents self.new.writer)) }
        ensures some { IfOk result (λ n. 0 < n) }
        ensures within { IfOk result (λ n. n ≤ length piece.now) }
        ensures ok { OnOk result (self.new.faults ≡ self.old.faults) }
        ensures err { OnErr result (self.new.faults ≡ raised self.old.faults) }
        ensures counts { self.old.faults ≤ self.new.faults }
    {
        for _ in 0..TRIES {
            match self.writer.write(piece) {
                Ok(0) => break,
                Ok(count) => return Ok(count),
                Err(e) if is_interrupted(&e) => {}
                Err(_) => break,
            }
        }
        Err(self.fault())
    }
}

impl<W: Write> Sink for StdSink<W> {
    ghost held = { λ _. None };

    ghost pieces = { λ _. None };

    ghost faults = { λ s. s.faults };

    /// Where it is `Ok`, the whole piece was written and flushed.
    fn put(&mut self, piece: &[u8]) -> Result<(), Failed>
        // A call that fails counts one fault, and no other does.
        ensures ok { OnOk result (self.new.faults ≡ self.old.faults) }
        ensures err { OnErr result (self.new.faults ≡ raised self.old.faults) }

        // Where the writer tells what it holds, it got the piece, or a front of it.
        ensures bytes { OnOk result (Appends (W.contents self.old.writer)
            (W.contents self.new.writer) piece.now) }
        ensures front { OnErr result ((n : ℕ) × Appends (W.contents self.old.writer)
            (W.contents self.new.writer) (take n piece.now)) }

        // What each sink promises.
        ensures counts { self.old.faults ≤ self.new.faults }
        ensures failed { OnErr result (Rose self.old.faults self.new.faults) }
    {
        let mut rest = piece;
        while !rest.is_empty() {
            let count = self.write_front(rest)?;
            rest = &rest[count..];
        }
        match self.writer.flush() {
            Ok(()) => Ok(()),
            Err(_) => Err(self.fault()),
        }
    }
}

#[cfg(test)]
mod tests {
    use super::*;
    use crate::transcript::puts;
    use std::io;
    use std::io::{Error, ErrorKind};
    use std::test::Fail;

    // It takes a byte at a time. Its third write takes nothing, its fifth fails, a signal interrupts
    // the first, and its third flush fails.
    #[derive(Drop)]
    struct Shaky {
        held: Vec<u8>,
        writes: u8,
        flushes: u8,
    }

    impl Write for Shaky {
        fn write(&mut self, buf: &[u8]) -> io::Result<usize> {
            self.writes = self.writes.saturating_add(1);
            match (self.writes, buf) {
                (1, _) => Err(Error::new(ErrorKind::Interrupted, "a signal")),
                (3, _) | (_, []) => Ok(0),
                (5, _) => Err(Error::new(ErrorKind::Other, "torn")),
                (_, [first, ..]) => {
                    self.held.push(*first)?;
                    Ok(1)
                }
            }
        }

        fn flush(&mut self) -> io::Result<()> {
            self.flushes = self.flushes.saturating_add(1);
            if self.flushes == 3 {
                return Err(Error::new(ErrorKind::Other, "torn"));
            }
            Ok(())
        }
    }

    #[test]
    fn counts_what_fails(rt: HostRuntime) -> Result<(), Fail> {
        let alloc = rt.alloc();
        let mut sink = StdSink::new(Shaky {
            held: Vec::new(alloc),
            writes: 0,
            flushes: 0,
        });
        // The first piece: interrupted, "a", nothing. The second: "c", torn. The third goes through,
        // as does the empty one. The last isn't flushed.
        let seen = puts(alloc, &mut sink, &["ab", "cd", "ef", "", "g"])?;
        assert_eq!(rt; seen.as_slice(), b"!!..!".as_slice());
        assert_eq!(rt; sink.writer.held.as_slice(), b"acefg".as_slice());
        assert_eq!(rt; sink.faults(), 3);
        let mut output = StdSink::new(rt.stdout());
        assert_eq!(rt;
            puts(alloc, &mut output, &[""])?.as_slice(),
            b".".as_slice()
        );
        let mut errors = StdSink::new(rt.stderr());
        assert_eq!(rt;
            puts(alloc, &mut errors, &["", "seen\n"])?.as_slice(),
            b"..".as_slice()
        );
        Ok(())
    }
}
