// The pieces of a text, each of which is to be a statement.
ghost use Rattle.std.specs.Prelude.{◌≡◌, [], MatchOption, position};
ghost use Rattle.ms_grammar.specs.Statements.{first_line};
ghost use Rattle.ms_parse.specs.Pieces.{is_dot, piece_len, IsFirstPiece};

use ms_text::token::{Token, TokenKind};

/// The first piece, which ends after the first dot, and the tokens after it.
pub(crate) fn split_piece(tokens: &[Token]) -> Option<(&[Token], &[Token])>
    ensures { MatchOption result (tokens.now ≡ [])
        (λ parts. IsFirstPiece tokens.now parts.0.now parts.1.now) }
{
    if tokens.is_empty() {
        return None;
    }
    Some(tokens.split_at(piece_len(tokens)))
}

// How many tokens the first piece has.
fn piece_len(tokens: &[Token]) -> usize
    ensures { result ≡ piece_len tokens.now }
{
    dot_place(tokens).map_or(tokens.len(), |dot| dot + 1)
}

// The place of the first dot.
fn dot_place(tokens: &[Token]) -> Option<usize>
    ensures { result ≡ position (λ token. is_dot token.kind) tokens.now }
{
    tokens
        .iter()
        .position(|token| matches!(token.kind, TokenKind::Dot))
}

/// Whether the token is a dot.
pub(crate) fn is_dot(token: &Token) -> bool
    ensures { result ≡ is_dot token.now.kind }
{
    matches!(token.kind, TokenKind::Dot)
}

/// The line of the first token.
pub(crate) fn line_of(piece: &[Token]) -> u64
    ensures { result ≡ first_line piece.now }
{
    piece.first().map_or(0, |token| token.line)
}
