//! The next token of a text.
ghost use Rattle.std.specs.Prelude.{◌≡◌, ◌<◌, ◌≤◌, ℕ, List, length, slice_index, [], ◌∷◌, IfOk, IfSome, IfNone, MatchOption, true, false};
ghost use Rattle.clj_reader.specs.declared.place.Place.{Place};
ghost use Rattle.clj_reader.specs.declared.token.Atom.TheVariants as atom;
ghost use Rattle.clj_reader.specs.declared.token.Token.TheVariants as token;
ghost use Rattle.clj_reader.specs.Spellings.{is_separator, is_bracket, escaped, lexeme, unreadable};
ghost use Rattle.clj_reader.specs.Tokens.{between, text, escape};
ghost use Rattle.clj_reader.specs.Cursors.{Fits, Reads, tokens_at};

use crate::bytes::{bracket_token, escaped, is_bracket};
use crate::cursor::{Cursor, gap_end, step, word_end};
use crate::name::Name;
use crate::token::{Atom, Flaw, Lexeme, Token};
use crate::word::token_of_word;
use std::alloc::{AllocError, Global};

/// The token at or behind a place between tokens, and where it ends. `None` where none comes.
#[tactic(auto, using(crate::proofs::TokenLemmas::nothing_over))]
pub(crate) fn next_token(
    alloc: Global,
    bytes: &[u8],
    from: Cursor,
) -> Result<Option<(Lexeme, Cursor)>, AllocError>
    requires { Fits bytes.now from }
    ensures { IfOk result (λ next. MatchOption next
        (tokens_at between bytes.now from ≡ [])
        (λ found. Reads bytes.now from found.0 found.1)) }
{
    let start = gap_end(bytes, from);
    if start.at == bytes.len() {
        return Ok(None);
    }
    Ok(Some(token_at(alloc, bytes, start)?))
}

/// The token that begins at a cursor.
fn token_at(alloc: Global, bytes: &[u8], start: Cursor) -> Result<(Lexeme, Cursor), AllocError>
    requires fits { Fits bytes.now start }
    requires more { start.at < length bytes.now }
    requires separator { is_separator (slice_index bytes.now start.at) ≡ false }
    requires comment { slice_index bytes.now start.at ≡ 59 → ⊥ }
    ensures { IfOk result (λ found. Reads bytes.now start found.0 found.1) }
{
    let byte = bytes[start.at];
    if is_bracket(byte) {
        return Ok(bracket(bytes, start));
    }
    if byte == b'"' {
        return text(alloc, bytes, start);
    }
    word(alloc, bytes, start)
}

/// The bracket at a cursor.
#[tactic(auto, using(crate::proofs::TokenLemmas::bracket_begins))]
fn bracket(bytes: &[u8], start: Cursor) -> (Lexeme, Cursor)
    requires fits { Fits bytes.now start }
    requires more { start.at < length bytes.now }
    requires separator { is_separator (slice_index bytes.now start.at) ≡ false }
    requires comment { slice_index bytes.now start.at ≡ 59 → ⊥ }
    requires bracket { is_bracket (slice_index bytes.now start.at) ≡ true }
    ensures { Reads bytes.now start result.0 result.1 }
{
    let lexeme = Lexeme {
        place: start.place,
        token: bracket_token(bytes[start.at]),
    };
    (lexeme, step(bytes, start))
}

/// The word that begins at a cursor.
#[tactic(auto, using(crate::proofs::TokenLemmas::word_steps))]
fn word(alloc: Global, bytes: &[u8], start: Cursor) -> Result<(Lexeme, Cursor), AllocError>
    requires fits { Fits bytes.now start }
    requires more { start.at < length bytes.now }
    requires separator { is_separator (slice_index bytes.now start.at) ≡ false }
    requires comment { slice_index bytes.now start.at ≡ 59 → ⊥ }
    requires bracket { is_bracket (slice_index bytes.now start.at) ≡ false }
    requires quote { slice_index bytes.now start.at ≡ 34 → ⊥ }
    ensures { IfOk result (λ found. Reads bytes.now start found.0 found.1) }
{
    let end = word_end(bytes, start, step(bytes, start));
    let token = token_of_word(alloc, &bytes[start.at..end.at])?;
    let lexeme = Lexeme {
        place: start.place,
        token,
    };
    Ok((lexeme, end))
}

/// The text whose opening quote stands at a cursor.
#[tactic(auto, using(crate::proofs::TokenLemmas::quote_begins))]
fn text(alloc: Global, bytes: &[u8], start: Cursor) -> Result<(Lexeme, Cursor), AllocError>
    requires fits { Fits bytes.now start }
    requires more { start.at < length bytes.now }
    requires separator { is_separator (slice_index bytes.now start.at) ≡ false }
    requires comment { slice_index bytes.now start.at ≡ 59 → ⊥ }
    requires bracket { is_bracket (slice_index bytes.now start.at) ≡ false }
    requires quote { slice_index bytes.now start.at ≡ 34 }
    ensures { IfOk result (λ found. Reads bytes.now start found.0 found.1) }
{
    content(alloc, bytes, start, step(bytes, start))
}

/// The text that began at `start`, from behind its opening quote.
#[tactic(auto, using(crate::proofs::TokenLemmas::text_steps))]
fn content(
    alloc: Global,
    bytes: &[u8],
    start: Cursor,
    from: Cursor,
) -> Result<(Lexeme, Cursor), AllocError>
    requires fits { Fits bytes.now from }
    requires later { start.at < from.at }
    ensures fits { IfOk result (λ found. Fits bytes.now found.1) }
    ensures later { IfOk result (λ found. from.at ≤ found.1.at) }
    ensures reads { IfOk result (λ found. tokens_at (text start.place []) bytes.now from
        ≡ found.0 ∷ tokens_at between bytes.now found.1) }
{
    let mut content = Vec::new(alloc);
    let mut cursor = from;
    while cursor.at < bytes.len() {
        let byte = bytes[cursor.at];
        cursor = step(bytes, cursor);
        if byte == b'"' {
            return Ok((text_lexeme(start, content), cursor));
        }
        if byte != b'\\' {
            content.push(byte)?;
            continue;
        }
        let Some(character) = escape_at(bytes, cursor) else {
            return Ok(unreadable_text(bytes, start, cursor));
        };
        content.push(character)?;
        cursor = step(bytes, cursor);
    }
    Ok(unreadable_text(bytes, start, cursor))
}

/// What the escape stands for whose character is next, and `None` where it is none.
#[tactic(auto, using(crate::proofs::TokenLemmas::text_steps))]
fn escape_at(bytes: &[u8], cursor: Cursor) -> Option<u8>
    ensures some { IfSome result (λ c. (cursor.at < length bytes.now)
        × (escaped (slice_index bytes.now cursor.at) ≡ Some c)) }
    ensures none { IfNone result ((s : Place) (content : List ℕ) →
        tokens_at (escape s content) bytes.now cursor ≡ unreadable s ∷ []) }
{
    if cursor.at < bytes.len() {
        escaped(bytes[cursor.at])
    } else {
        None
    }
}

/// A text that is read.
fn text_lexeme(start: Cursor, content: Vec<u8>) -> Lexeme
    ensures { result ≡ lexeme start.place (token.Atom (atom.Text content.items)) }
{
    Lexeme {
        place: start.place,
        token: Token::Atom(Atom::Text(Name::from_bytes(content))),
    }
}

/// A text that is refused. Nothing behind it is read, so it ends with the bytes.
#[tactic(auto, using(crate::proofs::TokenLemmas::nothing_over))]
fn unreadable_text(bytes: &[u8], start: Cursor, cursor: Cursor) -> (Lexeme, Cursor)
    requires { Fits bytes.now cursor }
    ensures fits { Fits bytes.now result.1 }
    ensures later { cursor.at ≤ result.1.at }
    ensures reads { result.0 ∷ tokens_at between bytes.now result.1 ≡ unreadable start.place ∷ [] }
{
    let lexeme = Lexeme {
        place: start.place,
        token: Token::Bad(Flaw::Unreadable),
    };
    let end = Cursor {
        at: bytes.len(),
        place: cursor.place,
    };
    (lexeme, end)
}
