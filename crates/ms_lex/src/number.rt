// Numbers in decimal digits.
ghost use Rattle.std.specs.Prelude.{◌≡◌, ◌<◌, ◌≤◌, ◌^◌, IsTrue, length, drop, slice_index, take_while, All, MatchOption, IfSome};
ghost use Rattle.ms_text.specs.Tokens.{is_digit, number_of, number_token};

use ms_text::token::TokenKind;

/// The greatest number, which together with a minus sign is the least 64-bit integer.
const GREATEST: u64 = 1 << 63;

/// A number, where a digit stands at the front: 0 by itself, or another digit with the digits after it.
pub(crate) fn number_token(text: &[u8]) -> Option<(TokenKind, usize)>
    requires { IsTrue (is_digit (slice_index text.now 0)) }
    ensures value { result ≡ number_token (slice_index text.now 0) (drop 1 text.now) }
    ensures within { IfSome result (λ found. (0 < found.1) × (found.1 ≤ length text.now)) }
{
    if text[0] == b'0' {
        return Some((TokenKind::Number, 1));
    }
    let digits = &text[..digits_len(text)];
    match number_of(digits) {
        Some(number) if number <= GREATEST => Some((TokenKind::Number, digits.len())),
        _ => None,
    }
}

/// How many digits stand at the front.
fn digits_len(text: &[u8]) -> usize
    ensures value { result ≡ length (take_while is_digit text.now) }
    ensures within { result ≤ length text.now }
{
    text.iter().take_while(|byte| byte.is_ascii_digit()).count()
}

/// The number that decimal digits stand for, where it is below 2^64.
fn number_of(digits: &[u8]) -> Option<u64>
    requires { All (λ b. IsTrue (is_digit b)) digits.now }
    ensures { MatchOption result (2 ^ 64 ≤ number_of digits.now) (λ n. n ≡ number_of digits.now) }
{
    let mut number: u64 = 0;
    for digit in digits {
        let tens = number.checked_mul(10)?;
        number = tens.checked_add(u64::from(*digit - b'0'))?;
    }
    Some(number)
}
