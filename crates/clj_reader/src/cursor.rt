//! A cursor over the bytes of a text, and the ends of gaps and words.
ghost use Rattle.std.specs.Prelude.{◌≡◌, ◌+◌, ◌<◌, ◌≤◌, length, slice_index, false};
ghost use Rattle.clj_reader.specs.Places.{behind};
ghost use Rattle.clj_reader.specs.Spellings.{is_separator, is_word_byte};
ghost use Rattle.clj_reader.specs.Tokens.{between, comment};
ghost use Rattle.clj_reader.specs.Cursors.{Fits, in_word, tokens_at};

use crate::bytes::{is_separator, is_word_byte};
use crate::place::Place;

/// How many bytes come before it, and the place of the next.
#[derive(Clone, Copy, Debug)]
pub(crate) struct Cursor {
    pub at: usize,
    pub place: Place,
}

/// The place behind a byte.
#[tactic(auto, unfolding(crate::specs::Places::behind))]
pub(crate) fn behind(byte: u8, place: Place) -> Place
    requires line { place.line ≤ 1048577 }
    requires column { place.column ≤ 1048577 }
    ensures same { result ≡ behind byte place }
    ensures line { result.line ≤ place.line + 1 }
    ensures column { result.column ≤ place.column + 1 }
{
    if byte == b'\n' {
        Place {
            line: place.line + 1,
            column: 1,
        }
    } else if byte >= 128 && byte < 192 {
        place
    } else {
        Place {
            line: place.line,
            column: place.column + 1,
        }
    }
}

/// The cursor behind the next byte.
pub(crate) fn step(bytes: &[u8], from: Cursor) -> Cursor
    requires fits { Fits bytes.now from }
    requires more { from.at < length bytes.now }
    ensures fits { Fits bytes.now result }
    ensures at { result.at ≡ from.at + 1 }
    ensures place { result.place ≡ behind (slice_index bytes.now from.at) from.place }
{
    Cursor {
        at: from.at + 1,
        place: behind(bytes[from.at], from.place),
    }
}

/// The newline that ends a comment, or the end of the text.
#[tactic(auto, using(crate::proofs::TokenLemmas::comment_steps))]
fn comment_end(bytes: &[u8], from: Cursor) -> Cursor
    requires { Fits bytes.now from }
    ensures fits { Fits bytes.now result }
    ensures later { from.at ≤ result.at }
    ensures same { tokens_at comment bytes.now from ≡ tokens_at between bytes.now result }
{
    let mut cursor = from;
    while cursor.at < bytes.len() && bytes[cursor.at] != b'\n' {
        cursor = step(bytes, cursor);
    }
    cursor
}

/// The first byte of the next token, or the end of the text.
#[tactic(auto, using(crate::proofs::TokenLemmas::gap_steps))]
pub(crate) fn gap_end(bytes: &[u8], from: Cursor) -> Cursor
    requires { Fits bytes.now from }
    ensures fits { Fits bytes.now result }
    ensures later { from.at ≤ result.at }
    ensures same { tokens_at between bytes.now from ≡ tokens_at between bytes.now result }
    ensures separator { result.at < length bytes.now
        → is_separator (slice_index bytes.now result.at) ≡ false }
    ensures comment { result.at < length bytes.now → slice_index bytes.now result.at ≡ 59 → ⊥ }
{
    let mut cursor = from;
    while cursor.at < bytes.len() {
        let byte = bytes[cursor.at];
        if is_separator(byte) {
            cursor = step(bytes, cursor);
        } else if byte == b';' {
            cursor = comment_end(bytes, step(bytes, cursor));
        } else {
            return cursor;
        }
    }
    cursor
}

/// Where a word ends that began at a cursor, and has one byte at least.
#[tactic(auto, using(crate::proofs::TokenLemmas::word_steps))]
pub(crate) fn word_end(bytes: &[u8], start: Cursor, from: Cursor) -> Cursor
    requires fits { Fits bytes.now from }
    requires later { start.at < from.at }
    ensures fits { Fits bytes.now result }
    ensures later { from.at ≤ result.at }
    ensures same { tokens_at (in_word bytes.now start from) bytes.now from
        ≡ tokens_at (in_word bytes.now start result) bytes.now result }
    ensures ends { result.at < length bytes.now
        → is_word_byte (slice_index bytes.now result.at) ≡ false }
{
    let mut cursor = from;
    while cursor.at < bytes.len() && is_word_byte(bytes[cursor.at]) {
        cursor = step(bytes, cursor);
    }
    cursor
}
