// Values and atoms at the front of tokens.
ghost use Rattle.std.specs.Prelude.{◌≡◌, length, drop, IfOk};
ghost use Rattle.ms_text.specs.Tokens.{LieWithin};
ghost use Rattle.ms_grammar.specs.Words.{words_of};
ghost use Rattle.ms_call.specs.Commands.{IsValue, IsAtom};
ghost use Rattle.ms_lines.specs.Finding.{Finds, FitWithin, IsFront};
ghost use Rattle.ms_lines.specs.Words.{carries_on, ended, begins_with_name};

use ms_base::memory::OutOfMemory;
use ms_grammar::part::ValuePart;
use ms_grammar::value::Value;
use ms_read_value::read_front;
use ms_text::token::{Token, TokenKind};
use std::alloc::Global;

/// The value at the front of the tokens that what follows it doesn't carry on, with the number of its tokens.
pub(crate) fn read_value(
    alloc: Global,
    text: &[u8],
    tokens: &[Token],
) -> Result<Option<(Value, usize)>, OutOfMemory>
    requires { LieWithin (length text.now) tokens.now }
    ensures found { IfOk result (Finds (IsFront IsValue (words_of text.now tokens.now))) }
    ensures within { IfOk result (FitWithin (length tokens.now)) }
{
    let found = read_front(alloc, text, tokens)?;
    Ok(ended(tokens, found))
}

/// What was found, where what follows doesn't carry it on.
fn ended(tokens: &[Token], found: Option<(ValuePart, usize)>) -> Option<(Value, usize)>
    ensures { result ≡ ended tokens.now found }
{
    match found {
        Some((part, count)) if !carries_on(tokens, count) => Some((part.value, count)),
        _ => None,
    }
}

/// Whether `(` follows so many tokens.
pub(crate) fn carries_on(tokens: &[Token], count: usize) -> bool
    ensures { result ≡ carries_on (drop count tokens.now) }
{
    match tokens.get(count) {
        Some(token) => matches!(token.kind, TokenKind::LeftParen),
        None => false,
    }
}

/// The atom at the front of the tokens, with the number of its tokens.
pub(crate) fn read_atom(
    alloc: Global,
    text: &[u8],
    tokens: &[Token],
) -> Result<Option<(Value, usize)>, OutOfMemory>
    requires { LieWithin (length text.now) tokens.now }
    ensures found { IfOk result (Finds (IsFront IsAtom (words_of text.now tokens.now))) }
    ensures within { IfOk result (FitWithin (length tokens.now)) }
{
    if begins_with_name(tokens) {
        read_value(alloc, text, tokens)
    } else {
        Ok(None)
    }
}

fn begins_with_name(tokens: &[Token]) -> bool
    ensures { result ≡ begins_with_name tokens.now }
{
    match tokens {
        [first, ..] => matches!(first.kind, TokenKind::Name),
        [] => false,
    }
}
