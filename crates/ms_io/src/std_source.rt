ghost use Rattle.std.specs.Prelude.{◌≡◌, ◌<◌, ◌≤◌, length, take, None, IfOk, OnOk, OnErr};
ghost use Rattle.std.specs.Io.KnownBytes.{Consumes, IsAtEnd, Keeps};
ghost use Rattle.ms_io.specs.Faults.{Rose, raised};

use crate::failed::Failed;
use crate::source::Source;
use crate::tries::{TRIES, is_interrupted};
use std::io::Read;
use std::marker::Model;

/// A source over a reader, as standard input.
#[derive(Debug, Drop)]
pub struct StdSource<R> {
    reader: R,
    faults: u64,
}

impl<R> Model for StdSource<R> {
    ghost use Rattle.ms_io.specs.StdSource.{Reads};

    ghost Value = { Reads R };

    ghost view = { λ s. record { reader = s.reader; faults = s.faults } };
}

impl<R: Read> StdSource<R> {
    pub fn new(reader: R) -> Self
        ensures { result ≡ record { reader = reader; faults = 0 } }
    {
        StdSource { reader, faults: 0 }
    }

    /// How many calls failed. The count stops at its greatest value.
    pub fn faults(&self) -> u64
        ensures { result ≡ self.now.faults }
    {
        self.faults
    }
}

impl<R: Read> Source for StdSource<R> {
    ghost left = { λ _. None };

    ghost faults = { λ s. s.faults };

    fn take(&mut self, buffer: &mut [u8]) -> Result<usize, Failed>
        // A call that fails counts one fault, and no other does.
        ensures ok { OnOk result (self.new.faults ≡ self.old.faults) }
        ensures err { OnErr result (self.new.faults ≡ raised self.old.faults) }

        // Where the reader tells what it has left, no byte of that is lost.
        ensures bytes { IfOk result (λ n. Consumes (R.remaining self.old.reader)
            (R.remaining self.new.reader) (take n buffer.new)) }
        ensures end { IfOk result (λ n. n ≡ 0 → 0 < length buffer.old
            → IsAtEnd (R.remaining self.new.reader)) }
        ensures kept { OnErr result (Keeps (R.remaining self.old.reader) (R.remaining self.new.reader)) }

        // What each source promises.
        ensures counts { self.old.faults ≤ self.new.faults }
        ensures failed { OnErr result (Rose self.old.faults self.new.faults) }
        ensures within { IfOk result (λ n. n ≤ length buffer.old) }
    {
        for _ in 0..TRIES {
            match self.reader.read(buffer) {
                Ok(count) => return Ok(count),
                Err(e) if is_interrupted(&e) => {}
                Err(_) => break,
            }
        }
        self.faults = self.faults.saturating_add(1);
        Err(Failed)
    }
}

#[cfg(test)]
mod tests {
    use super::*;
    use crate::transcript::takes;
    use std::io;
    use std::io::{Error, ErrorKind};
    use std::test::Fail;

    // Its second read fails, and signals interrupt the third and each from the fifth on.
    #[derive(Drop)]
    struct Shaky {
        reads: u8,
    }

    impl Read for Shaky {
        fn read(&mut self, buf: &mut [u8]) -> io::Result<usize> {
            let read = self.reads;
            self.reads = read.saturating_add(1);
            match read {
                1 => Err(Error::new(ErrorKind::Other, "torn")),
                0 | 3 if buf.len() > 0 => {
                    buf[0] = b'a' + read;
                    Ok(1)
                }
                _ => Err(Error::new(ErrorKind::Interrupted, "a signal")),
            }
        }
    }

    #[test]
    fn counts_what_fails(rt: HostRuntime) -> Result<(), Fail> {
        let alloc = rt.alloc();
        let mut source = StdSource::new(Shaky { reads: 0 });
        let seen = takes(alloc, &mut source, 4, 4)?;
        assert_eq!(rt; seen.as_slice(), b"a|!|d|!|".as_slice());
        assert_eq!(rt; source.faults(), 2);
        let empty: &[u8] = b"";
        let mut ended = StdSource::new(empty);
        assert_eq!(rt; takes(alloc, &mut ended, 4, 1)?.as_slice(), b"|".as_slice());
        let mut input = StdSource::new(rt.stdin());
        assert_eq!(rt; takes(alloc, &mut input, 0, 1)?.as_slice(), b"|".as_slice());
        Ok(())
    }
}
