// Strings of bytes under numbers: the names of functions and the bytes of strings.
ghost use Rattle.std.specs.Prelude.{◌≡◌, ◌<◌, [], length, option_copied, slice_get, MatchOption, IfOk, OnErr};
ghost use Rattle.ms_term.specs.Words.{word_at, HasNoWord, IsWordOf, Keeps};

use indexmap::IndexSet;
use ms_base::memory::OutOfMemory;
use std::alloc::Global;
use std::marker::Model;

/// Strings of bytes, each once. Contracts see the list of them.
#[derive(Drop)]
pub(crate) struct Words {
    words: IndexSet<Vec<u8>>,
    alloc: Global,
}

impl Model for Words {
    ghost use Rattle.std.specs.Prelude.{ℕ, List};
    ghost use Rattle.ms_term.specs.Words.{bytes_of, AreOnce};

    ghost Value = { List (List ℕ) };

    ghost view = { λ w. bytes_of w.words.keys };

    ghost invariant = { λ w. AreOnce (bytes_of w.words.keys) };
}

impl Words {
    /// No strings, which take no memory.
    pub(crate) fn new(alloc: Global) -> Self
        ensures { result ≡ [] }
    {
        Words {
            words: IndexSet::new(alloc),
            alloc,
        }
    }

    /// The number of a string, or `None` exactly where it isn't there.
    pub(crate) fn find(&self, bytes: &[u8]) -> Option<usize>
        ensures { MatchOption result (HasNoWord self.now bytes.now) (IsWordOf self.now bytes.now) }
    {
        self.words.get_index_of(bytes)
    }

    /// The number of a string, which goes last where it is new.
    pub(crate) fn intern(&mut self, bytes: &[u8]) -> Result<usize, OutOfMemory>
        ensures ok { IfOk result (Keeps self.old self.new bytes.now) }
        ensures err { OnErr result (self.new ≡ self.old) }
    {
        if let Some(number) = self.find(bytes) {
            return Ok(number);
        }
        let bytes = Vec::from_slice(self.alloc, bytes)?;
        let (number, _) = self.words.insert_full(bytes)?;
        Ok(number)
    }

    /// The string of a number.
    pub(crate) fn bytes(&self, number: usize) -> &[u8]
        requires { number < length self.now }
        ensures { result.now ≡ word_at self.now number }
    {
        self.words.as_slice()[number].as_slice()
    }
}
