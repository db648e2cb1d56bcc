// Signs and names at the front of tokens.
ghost use Rattle.std.specs.Prelude.{◌≡◌, ◌≤◌, length, drop, MatchOption};
ghost use Rattle.ms_text.specs.Tokens.{LieWithin};
ghost use Rattle.ms_lines.specs.Signs.{Begins, BeginsNot, NameComes, NameComesNot};

use crate::words::is_name;
use ms_text::token::{Token, TokenKind};

/// The tokens after a first token of this kind, if that is the first one.
pub(crate) fn after_sign(tokens: &[Token], kind: TokenKind) -> Option<&[Token]>
    ensures { MatchOption result (BeginsNot tokens.now kind)
        (λ rest. Begins tokens.now kind rest.now) }
{
    let (first, rest) = tokens.split_first()?;
    (first.kind == kind).then_some(rest)
}

/// The tokens after the first ones.
pub(crate) fn tokens_after(tokens: &[Token], count: usize) -> &[Token]
    requires { count ≤ length tokens.now }
    ensures { result.now ≡ drop count tokens.now }
{
    tokens.split_at(count).1
}

/// The tokens after a first token that is this name, if that is the first one.
pub(crate) fn after_name<'a>(text: &[u8], tokens: &'a [Token], name: &[u8]) -> Option<&'a [Token]>
    requires { LieWithin (length text.now) tokens.now }
    ensures { MatchOption result (NameComesNot text.now tokens.now name.now)
        (λ rest. NameComes text.now tokens.now name.now rest.now) }
{
    let (first, rest) = tokens.split_first()?;
    if is_name(text, *first, name) {
        Some(rest)
    } else {
        None
    }
}
