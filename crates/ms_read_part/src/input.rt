// What is left to read.
ghost use Rattle.std.specs.Prelude.{◌≡◌, ◌≢◌, ◌≤◌, List, length, drop, Some, true, false};
ghost use Rattle.std.specs.Option.{option_map};
ghost use Rattle.ms_text.specs.Tokens.{LieWithin};
ghost use Rattle.ms_grammar.specs.Words.{Word, words_of};
ghost use Rattle.ms_read_part.specs.Kinds.{front_kind};
ghost use Rattle.ms_read_part.specs.Cuts.{ended};

use crate::kinds::ends_at;
use ms_base::memory::OutOfMemory;
use ms_text::token::{Token, TokenKind};
use std::alloc::Global;
use std::marker::Model;

/// The tokens that are left, with the text in which they lie. Contracts see what they say.
#[derive(Drop)]
pub(crate) struct Input<'a> {
    pub(crate) alloc: Global,
    pub(crate) text: &'a [u8],
    pub(crate) tokens: &'a [Token],
}

/// What was read, with what is left, or nothing.
pub(crate) type Found<'a, T> = Result<Option<(T, Input<'a>)>, OutOfMemory>;

impl<'a> Model for Input<'a> {
    ghost use Rattle.std.specs.Prelude.{List, length};
    ghost use Rattle.ms_text.specs.Tokens.{LieWithin};
    ghost use Rattle.ms_grammar.specs.Words.{Word, words_of};

    ghost Value = { List Word };

    ghost view = { λ input. words_of input.text.now input.tokens.now };

    ghost invariant = { λ input. LieWithin (length input.text.now) input.tokens.now };
}

impl<'a> Input<'a> {
    pub(crate) fn new(alloc: Global, text: &'a [u8], tokens: &'a [Token]) -> Self
        requires { LieWithin (length text.now) tokens.now }
        ensures { result ≡ words_of text.now tokens.now }
    {
        Input {
            alloc,
            text,
            tokens,
        }
    }

    pub(crate) fn len(&self) -> usize
        ensures { result ≡ length self.now }
    {
        self.tokens.len()
    }

    /// The kind of the first token.
    pub(crate) fn front(&self) -> Option<TokenKind>
        ensures { result ≡ front_kind self.now }
    {
        match self.tokens {
            [first, ..] => Some(first.kind),
            [] => None,
        }
    }

    /// Whether the first token is of this kind.
    pub(crate) fn begins_with(&self, kind: TokenKind) -> bool
        ensures is { result ≡ true → front_kind self.now ≡ Some kind }
        ensures is_not { result ≡ false → front_kind self.now ≢ Some kind }
    {
        match self.front() {
            Some(front) => front == kind,
            None => false,
        }
    }

    /// The kind of the second token.
    pub(crate) fn second(&self) -> Option<TokenKind>
        ensures { result ≡ front_kind (drop 1 self.now) }
    {
        match self.tokens {
            [_, second, ..] => Some(second.kind),
            _ => None,
        }
    }

    /// What is left after the first token, or nothing.
    pub(crate) fn after_front(self) -> Self
        ensures { result ≡ drop 1 self.entry }
    {
        if self.tokens.is_empty() {
            self
        } else {
            self.after(1)
        }
    }

    /// The value, if there is one, with what is left behind it.
    pub(crate) fn behind<T>(self, value: Option<T>) -> Option<(T, Input<'a>)>
        ensures { result ≡ option_map (λ v. (v, self.entry)) value }
    {
        match value {
            Some(value) => Some((value, self)),
            None => None,
        }
    }

    /// What is left after so many tokens.
    pub(crate) fn after(self, len: usize) -> Self
        requires { len ≤ length self }
        ensures { result ≡ drop len self.entry }
    {
        let Input {
            alloc,
            text,
            tokens,
        } = self;
        Input {
            alloc,
            text,
            tokens: &tokens[len..],
        }
    }
}

/// What was read of so many tokens, with the number of those that were read, where what is left may follow
/// a part of a statement.
pub(crate) fn ended<T: Drop>(found: Option<(T, Input)>, len: usize) -> Option<(T, usize)>
    ensures { result ≡ ended len found.entry }
{
    let (value, rest) = found?;
    if ends_at(rest.front()) {
        Some((value, len.saturating_sub(rest.len())))
    } else {
        None
    }
}
