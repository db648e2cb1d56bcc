// Signs and words of the language at the front of tokens.
ghost use Rattle.std.specs.Prelude.{◌↔◌, [], IsTrue, MatchOption};
ghost use Rattle.ms_parse.specs.Signs.{Begins, BeginsNot};

use ms_text::token::{Token, TokenKind};

/// The tokens after a first token of this kind, if that is the first one.
pub(crate) fn after_sign(tokens: &[Token], kind: TokenKind) -> Option<&[Token]>
    ensures { MatchOption result (BeginsNot tokens.now kind)
        (λ rest. Begins tokens.now kind rest.now) }
{
    let (first, rest) = tokens.split_first()?;
    (first.kind == kind).then_some(rest)
}

/// Whether there is one token, of this kind.
pub(crate) fn is_alone(tokens: &[Token], kind: TokenKind) -> bool
    ensures { IsTrue result ↔ Begins tokens.now kind [] }
{
    match after_sign(tokens, kind) {
        Some(rest) => rest.is_empty(),
        None => false,
    }
}
