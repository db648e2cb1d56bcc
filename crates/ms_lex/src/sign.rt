// Signs of one byte or two.
ghost use Rattle.std.specs.Prelude.{◌≡◌, ◌+◌, ◌<◌, ◌≤◌, length, IfSome};
ghost use Rattle.ms_text.specs.Tokens.{sign_token};

use ms_text::token::TokenKind;

/// A sign, the longer one where two begin with the same byte.
pub(crate) fn sign_token(first: u8, after: &[u8]) -> Option<(TokenKind, usize)>
    ensures value { result ≡ sign_token first after.now }
    ensures within { IfSome result (λ found. (0 < found.1) × (found.1 ≤ 1 + length after.now)) }
{
    match (first, after) {
        (b'.', [b'.', ..]) => Some((TokenKind::DotDot, 2)),
        (b'.', _) => Some((TokenKind::Dot, 1)),
        (b',', _) => Some((TokenKind::Comma, 1)),
        (b';', _) => Some((TokenKind::Semicolon, 1)),
        (b':', [b'-', ..]) => Some((TokenKind::If, 2)),
        (b':', _) => Some((TokenKind::Colon, 1)),
        (b'(', _) => Some((TokenKind::LeftParen, 1)),
        (b')', _) => Some((TokenKind::RightParen, 1)),
        (b'{', _) => Some((TokenKind::LeftBrace, 1)),
        (b'}', _) => Some((TokenKind::RightBrace, 1)),
        (b'+', _) => Some((TokenKind::Plus, 1)),
        (b'-', _) => Some((TokenKind::Minus, 1)),
        (b'*', _) => Some((TokenKind::Star, 1)),
        (b'/', _) => Some((TokenKind::Slash, 1)),
        (b'\\', _) => Some((TokenKind::Backslash, 1)),
        (b'|', _) => Some((TokenKind::Bar, 1)),
        (b'=', [b'=', ..]) => Some((TokenKind::EqualEqual, 2)),
        (b'=', _) => Some((TokenKind::Equal, 1)),
        (b'!', [b'=', ..]) => Some((TokenKind::NotEqual, 2)),
        (b'<', [b'>', ..]) => Some((TokenKind::LessGreater, 2)),
        (b'<', [b'=', ..]) => Some((TokenKind::LessEqual, 2)),
        (b'<', _) => Some((TokenKind::Less, 1)),
        (b'>', [b'=', ..]) => Some((TokenKind::GreaterEqual, 2)),
        (b'>', _) => Some((TokenKind::Greater, 1)),
        _ => None,
    }
}
