// What the kind of a token begins or ends.
ghost use Rattle.std.specs.Prelude.{◌≡◌};
ghost use Rattle.ms_read_part.specs.Kinds.{cmp_at, ends_at, ends_element, opened_by, opens};

use ms_grammar::statement::{AggFn, Cmp};
use ms_text::token::TokenKind;

/// What begins the elements of a set or of an aggregate.
#[derive(Clone, Copy)]
pub(crate) enum Opening {
    /// `{`
    Set,
    /// `#count` or `#sum`
    Aggregate(AggFn),
}

/// The comparison that a token is.
pub(crate) fn cmp_at(front: Option<TokenKind>) -> Option<Cmp>
    ensures { result ≡ cmp_at front }
{
    match front? {
        TokenKind::Equal | TokenKind::EqualEqual => Some(Cmp::Eq),
        TokenKind::NotEqual | TokenKind::LessGreater => Some(Cmp::Ne),
        TokenKind::Less => Some(Cmp::Lt),
        TokenKind::LessEqual => Some(Cmp::Le),
        TokenKind::Greater => Some(Cmp::Gt),
        TokenKind::GreaterEqual => Some(Cmp::Ge),
        _ => None,
    }
}

/// Whether the token, or the end, may follow a part of a statement.
pub(crate) fn ends_at(front: Option<TokenKind>) -> bool
    ensures { result ≡ ends_at front }
{
    match front {
        Some(
            TokenKind::Comma
            | TokenKind::Semicolon
            | TokenKind::Colon
            | TokenKind::If
            | TokenKind::Dot
            | TokenKind::RightBrace,
        )
        | None => true,
        Some(_) => false,
    }
}

/// Whether the token may follow an element.
pub(crate) fn ends_element(front: Option<TokenKind>) -> bool
    ensures { result ≡ ends_element front }
{
    matches!(front, Some(TokenKind::Semicolon | TokenKind::RightBrace))
}

/// What the token opens.
pub(crate) fn opened_by(front: Option<TokenKind>) -> Option<Opening>
    ensures { result ≡ opened_by front }
{
    match front? {
        TokenKind::LeftBrace => Some(Opening::Set),
        TokenKind::Count => Some(Opening::Aggregate(AggFn::Count)),
        TokenKind::Sum => Some(Opening::Aggregate(AggFn::Sum)),
        _ => None,
    }
}

/// Whether the token opens a set or an aggregate.
pub(crate) fn opens(front: Option<TokenKind>) -> bool
    ensures { result ≡ opens front }
{
    matches!(
        front,
        Some(TokenKind::LeftBrace | TokenKind::Count | TokenKind::Sum)
    )
}
