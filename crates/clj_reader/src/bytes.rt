//! The kinds of byte that tokens are made of.
ghost use Rattle.std.specs.Prelude.{◌≡◌};
ghost use Rattle.clj_reader.specs.Spellings.{is_separator, is_bracket, bracket_token, is_word_byte, escaped, is_digit, is_sign, all_digits, is_letter, begins_symbol, in_symbol, all_in_symbol};

use crate::token::{Bracket, Token};

/// Whether a byte separates tokens.
#[tactic(auto, unfolding(crate::specs::Spellings::is_separator))]
pub(crate) fn is_separator(byte: u8) -> bool
    ensures { result ≡ is_separator byte }
{
    matches!(byte, b' ' | b'\t' | b'\n' | 0x0c | b'\r' | b',')
}

/// Whether a byte is one of the four brackets.
#[tactic(auto, unfolding(crate::specs::Spellings::is_bracket))]
pub(crate) fn is_bracket(byte: u8) -> bool
    ensures { result ≡ is_bracket byte }
{
    matches!(byte, b'(' | b')' | b'[' | b']')
}

/// The token that a bracket is.
#[tactic(auto, unfolding(crate::specs::Spellings::bracket_token))]
pub(crate) fn bracket_token(byte: u8) -> Token
    ensures { result ≡ bracket_token byte }
{
    match byte {
        b'(' => Token::Open(Bracket::Round),
        b')' => Token::Close(Bracket::Round),
        b'[' => Token::Open(Bracket::Square),
        _ => Token::Close(Bracket::Square),
    }
}

/// Whether a word goes on with a byte.
#[tactic(auto, unfolding(crate::specs::Spellings::is_word_byte))]
pub(crate) fn is_word_byte(byte: u8) -> bool
    ensures { result ≡ is_word_byte byte }
{
    !is_separator(byte) && !is_bracket(byte) && byte != b'"' && byte != b';'
}

/// What `\` and a byte stand for in a text.
#[tactic(auto, unfolding(crate::specs::Spellings::escaped))]
pub(crate) fn escaped(byte: u8) -> Option<u8>
    ensures { result ≡ escaped byte }
{
    match byte {
        b'"' => Some(b'"'),
        b'\\' => Some(b'\\'),
        b'n' => Some(b'\n'),
        b't' => Some(b'\t'),
        b'r' => Some(b'\r'),
        _ => None,
    }
}

/// Whether a byte is a decimal digit.
pub(crate) fn is_digit(byte: u8) -> bool
    ensures { result ≡ is_digit byte }
{
    byte >= b'0' && byte <= b'9'
}

/// Whether a byte is `+` or `-`.
pub(crate) fn is_sign(byte: u8) -> bool
    ensures { result ≡ is_sign byte }
{
    byte == b'+' || byte == b'-'
}

/// Whether each byte is a decimal digit.
pub(crate) fn all_digits(bytes: &[u8]) -> bool
    ensures { result ≡ all_digits bytes.now }
{
    bytes.iter().all(|byte| is_digit(*byte))
}

/// Whether a byte is a letter of ASCII.
fn is_letter(byte: u8) -> bool
    ensures { result ≡ is_letter byte }
{
    (byte >= b'a' && byte <= b'z') || (byte >= b'A' && byte <= b'Z')
}

/// Whether a symbol may begin with a byte.
pub(crate) fn begins_symbol(byte: u8) -> bool
    ensures { result ≡ begins_symbol byte }
{
    is_letter(byte)
        || matches!(
            byte,
            b'*' | b'+' | b'!' | b'-' | b'_' | b'?' | b'<' | b'>' | b'='
        )
}

/// Whether a symbol may go on with a byte.
fn in_symbol(byte: u8) -> bool
    ensures { result ≡ in_symbol byte }
{
    begins_symbol(byte) || is_digit(byte) || byte == b'\''
}

/// Whether a symbol may go on with each byte.
pub(crate) fn all_in_symbol(bytes: &[u8]) -> bool
    ensures { result ≡ all_in_symbol bytes.now }
{
    bytes.iter().all(|byte| in_symbol(*byte))
}
