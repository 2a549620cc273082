//! Which token a word is.
ghost use Rattle.std.specs.Prelude.{◌≡◌, min, IfOk};
ghost use Rattle.clj_reader.specs.Spellings.{is_number, unsigned, is_negative, is_integer, decimal_from, integer_value, negative_of, is_plain, is_signed, is_reducers_symbol, is_symbol, is_keyword, word_token};

use crate::bytes::{all_digits, all_in_symbol, begins_symbol, is_digit, is_sign};
use crate::name::Name;
use crate::token::{Atom, Flaw, Token};
use std::alloc::{AllocError, Global};

/// 2 to the 63rd, and one more: past what any 64-bit integer has before its sign.
const PAST_64_BITS: u128 = 9_223_372_036_854_775_809;

/// Whether digits are 0 alone, or begin with another digit.
fn is_number(digits: &[u8]) -> bool
    ensures { result ≡ is_number digits.now }
{
    match digits {
        [] => false,
        [first, rest @ ..] => {
            if *first == b'0' {
                rest.is_empty()
            } else {
                is_digit(*first) && all_digits(rest)
            }
        }
    }
}

/// A word without its sign.
fn unsigned(word: &[u8]) -> &[u8]
    ensures { result.now ≡ unsigned word.now }
{
    match word {
        [first, rest @ ..] if is_sign(*first) => rest,
        _ => word,
    }
}

/// Whether a word begins with `-`.
fn is_negative(word: &[u8]) -> bool
    ensures { result ≡ is_negative word.now }
{
    match word {
        [first, ..] => *first == b'-',
        [] => false,
    }
}

/// Whether a word is an integer, in 64 bits or not.
fn is_integer(word: &[u8]) -> bool
    ensures { result ≡ is_integer word.now }
{
    is_number(unsigned(word))
}

/// Whether a word begins with a sign and a digit.
fn is_signed(word: &[u8]) -> bool
    ensures { result ≡ is_signed word.now }
{
    match word {
        [sign, digit, ..] => is_sign(*sign) && is_digit(*digit),
        _ => false,
    }
}

/// Whether a word is a symbol without `/`.
fn is_plain(word: &[u8]) -> bool
    ensures { result ≡ is_plain word.now }
{
    match word {
        [first, rest @ ..] => begins_symbol(*first) && all_in_symbol(rest),
        [] => false,
    }
}

/// Whether a word is `r/` and a plain symbol.
fn is_reducers_symbol(word: &[u8]) -> bool
    ensures { result ≡ is_reducers_symbol word.now }
{
    match word {
        [b'r', b'/', rest @ ..] => is_plain(rest),
        _ => false,
    }
}

/// Whether a word is a symbol.
fn is_symbol(word: &[u8]) -> bool
    ensures { result ≡ is_symbol word.now }
{
    (is_plain(word) && !is_signed(word)) || is_reducers_symbol(word)
}

/// Whether a word is `:` and a plain symbol.
fn is_keyword(word: &[u8]) -> bool
    ensures { result ≡ is_keyword word.now }
{
    match word {
        [b':', rest @ ..] => is_plain(rest),
        _ => false,
    }
}

/// The token that a word is.
#[tactic(auto, unfolding(crate::specs::Spellings::word_token))]
pub(crate) fn token_of_word(alloc: Global, word: &[u8]) -> Result<Token, AllocError>
    ensures { IfOk result (λ token. token ≡ word_token word.now) }
{
    if word == b"nil".as_slice() {
        return Ok(Token::Atom(Atom::Nil));
    }
    if word == b"true".as_slice() {
        return Ok(Token::Atom(Atom::Bool(true)));
    }
    if word == b"false".as_slice() {
        return Ok(Token::Atom(Atom::Bool(false)));
    }
    if is_integer(word) {
        return Ok(match integer_value(word) {
            Some(value) => Token::Atom(Atom::Int(value)),
            None => Token::Bad(Flaw::TooLarge),
        });
    }
    if is_symbol(word) {
        let name = Name::from_bytes(Vec::from_slice(alloc, word)?);
        return Ok(Token::Atom(Atom::Symbol(name)));
    }
    if is_keyword(word) {
        let name = Name::from_bytes(Vec::from_slice(alloc, &word[1..])?);
        return Ok(Token::Atom(Atom::Keyword(name)));
    }
    Ok(Token::Bad(Flaw::Unreadable))
}

/// What an integer stands for, and `None` where 64 bits don't hold it.
fn integer_value(word: &[u8]) -> Option<i64>
    ensures { result ≡ integer_value word.now }
{
    let magnitude = magnitude(unsigned(word));
    if is_negative(word) {
        negated(magnitude)
    } else if magnitude < 9_223_372_036_854_775_808 {
        Some(magnitude as i64)
    } else {
        None
    }
}

/// The number below 0 with a magnitude, where 64 bits hold it.
fn negated(magnitude: u64) -> Option<i64>
    ensures { result ≡ negative_of magnitude }
{
    if magnitude < 9_223_372_036_854_775_808 {
        Some(-(magnitude as i64))
    } else if magnitude == 9_223_372_036_854_775_808 {
        Some(i64::MIN)
    } else {
        None
    }
}

/// What digits stand for, or `PAST_64_BITS` where that is less.
#[tactic(auto, using(crate::proofs::NumberLemmas::decimal_from_more))]
fn magnitude(digits: &[u8]) -> u64
    ensures { result ≡ min (decimal_from 0 digits.now) 9223372036854775809 }
{
    let mut value: u128 = 0;
    for digit in digits {
        value = (10 * value + u128::from(digit.saturating_sub(b'0'))).min(PAST_64_BITS);
    }
    value as u64
}
