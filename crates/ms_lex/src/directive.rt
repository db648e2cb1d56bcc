// Directives: a number sign and one of seven words.
ghost use Rattle.std.specs.Prelude.{◌≡◌, ◌+◌, ◌<◌, ◌≤◌, length, take_while, IfSome};
ghost use Rattle.ms_text.specs.Tokens.{is_word, directive_kind, directive_token};

use crate::bytes::word_len;
use ms_text::token::TokenKind;

/// A directive, from what stands after its number sign.
pub(crate) fn directive_token(after_sign: &[u8]) -> Option<(TokenKind, usize)>
    ensures value { result ≡ directive_token (take_while is_word after_sign.now) }
    ensures within { IfSome result (λ found. (0 < found.1) × (found.1 ≤ 1 + length after_sign.now)) }
{
    let len = word_len(after_sign);
    let kind = directive_kind(&after_sign[..len])?;
    Some((kind, 1 + len))
}

fn directive_kind(word: &[u8]) -> Option<TokenKind>
    ensures { result ≡ directive_kind word.now }
{
    match word {
        b"program" => Some(TokenKind::Program),
        b"external" => Some(TokenKind::External),
        b"const" => Some(TokenKind::Const),
        b"show" => Some(TokenKind::Show),
        b"include" => Some(TokenKind::Include),
        b"count" => Some(TokenKind::Count),
        b"sum" => Some(TokenKind::Sum),
        _ => None,
    }
}
