// Bytes that come at the end and go at the front.
ghost use Rattle.std.specs.Prelude.{◌≡◌, ◌↔◌, ◌≤◌, [], ◌++◌, length, vec_len, drop, take_while, MatchOption, OnOk, OnErr, IsTrue};
ghost use Rattle.ms_call.specs.Lines.{skipped};
ghost use Rattle.ms_lines.specs.Buffers.{is_passed, IsLineLen, HasNoLine};

use ms_base::memory::OutOfMemory;
use ms_base::seq::Bytes;
use ms_lex::line_len;
use std::alloc::Global;
use std::marker::Model;

/// Bytes that came and didn't go. Contracts see them as a list.
#[derive(Drop)]
pub(crate) struct Buffer {
    bytes: Vec<u8>,
    /// How many bytes are gone. They stay in front of the others until they are half of all.
    gone: usize,
    /// Where the next line end is looked for. None stands before.
    seen: usize,
}

impl Model for Buffer {
    ghost use Rattle.std.specs.Prelude.{ℕ, List, drop};
    ghost use Rattle.ms_lines.specs.Buffers.{IsKept};

    ghost Value = { List ℕ };

    ghost view = { λ b. drop b.gone b.bytes.items };

    ghost invariant = { λ b. IsKept b.bytes.items b.gone b.seen };
}

impl Buffer {
    pub fn new(alloc: Global) -> Buffer
        ensures { result ≡ [] }
    {
        Buffer {
            bytes: Vec::new(alloc),
            gone: 0,
            seen: 0,
        }
    }

    /// Takes these bytes over, which takes no memory.
    pub fn over(bytes: Bytes) -> Buffer
        ensures { result ≡ bytes }
    {
        Buffer {
            bytes: bytes.into_vec(),
            gone: 0,
            seen: 0,
        }
    }

    /// The bytes.
    pub fn bytes(&self) -> &[u8]
        ensures { result.now ≡ self.now }
    {
        &self.bytes[self.gone..]
    }

    pub fn is_empty(&self) -> bool
        ensures { IsTrue result ↔ (self.now ≡ []) }
    {
        self.bytes().is_empty()
    }

    /// Adds bytes at the end.
    pub fn push(&mut self, piece: &[u8]) -> Result<(), OutOfMemory>
        ensures ok { OnOk result (self.new ≡ self.old ++ piece.now) }
        ensures err { OnErr result (self.new ≡ self.old) }
    {
        self.bytes.extend_from_slice(piece)?;
        Ok(())
    }

    /// How many bytes stand before the first line end, where there is one. A byte is looked at once.
    pub fn line_len(&mut self) -> Option<usize>
        ensures same { self.new ≡ self.old }
        ensures found { MatchOption result
            (HasNoLine self.old)
            (IsLineLen self.old) }
    {
        let more = line_len(&self.bytes[self.seen..]);
        self.seen += more;
        (self.seen < self.bytes.len()).then_some(self.seen - self.gone)
    }

    /// Takes the spaces, tabs and line ends at the front away.
    pub fn pass_blanks(&mut self)
        ensures { self.new ≡ skipped is_passed self.old }
    {
        let count = passed_len(self.bytes());
        if count > 0 {
            self.advance(count);
        }
    }

    /// Takes bytes at the front away, no more than up to behind the first line end.
    pub fn advance(&mut self, count: usize)
        requires { count ≤ length self.old }
        ensures { self.new ≡ drop count self.old }
    {
        self.gone += count;
        if self.gone > self.bytes.len() / 2 {
            remove_front(&mut self.bytes, self.gone);
            self.gone = 0;
        }
        self.seen = self.gone;
    }
}

/// Takes so many bytes at the front away.
fn remove_front(bytes: &mut Vec<u8>, count: usize)
    requires { count ≤ vec_len bytes.old }
    ensures { bytes.new.items ≡ drop count bytes.old.items }
{
    let left = bytes.len() - count;
    bytes.copy_within(count.., 0);
    bytes.truncate(left);
}

/// How many spaces, tabs and line ends stand at the front.
fn passed_len(bytes: &[u8]) -> usize
    ensures value { result ≡ length (take_while is_passed bytes.now) }
    ensures within { result ≤ length bytes.now }
{
    bytes.iter().take_while(|byte| is_passed(**byte)).count()
}

/// Whether a byte is a space, a tab or a line end.
fn is_passed(byte: u8) -> bool
    ensures { result ≡ is_passed byte }
{
    matches!(byte, b' ' | b'\t' | b'\n')
}
