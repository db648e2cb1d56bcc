// Strings in double quotes.
ghost use Rattle.std.specs.Prelude.{◌≡◌, ◌+◌, ◌<◌, ◌≤◌, false, length, IfSome};
ghost use Rattle.ms_lex.specs.Strings.{character_len};
ghost use Rattle.ms_text.specs.Tokens.{text_len, text_token};

use ms_text::token::TokenKind;

/// A string, from what stands after its opening quote.
pub(crate) fn string_token(after_quote: &[u8]) -> Option<(TokenKind, usize)>
    ensures value { result ≡ text_token (text_len false after_quote.now) }
    ensures within { IfSome result (λ found. (0 < found.1) × (found.1 ≤ 1 + length after_quote.now)) }
{
    let len = string_len(after_quote)?;
    Some((TokenKind::Text, 1 + len))
}

/// How many bytes a string has from behind its opening quote to behind its closing one.
fn string_len(text: &[u8]) -> Option<usize>
    ensures value { result ≡ text_len false text.now }
    ensures within { IfSome result (λ n. n ≤ length text.now) }
{
    let mut len = 0;
    while !text[len..].starts_with(b"\"") {
        len += character_len(&text[len..])?;
    }
    Some(len + 1)
}

/// How many bytes the character at the front of a string's text has, where it isn't the closing quote.
fn character_len(text: &[u8]) -> Option<usize>
    ensures value { result ≡ character_len text.now }
    ensures within { IfSome result (λ n. (0 < n) × (n ≤ length text.now)) }
{
    match text {
        [b'\\', b'"' | b'\\' | b'n', ..] => Some(2),
        [b'\\' | b'\n', ..] | [] => None,
        _ => Some(1),
    }
}
