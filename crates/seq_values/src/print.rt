ghost use Rattle.std.specs.Prelude.{◌≡◌, ◌∷◌, [], ◌++◌, length, take, flat_map, is_some, unwrap_or, IfOk, OnOk, OnErr};
ghost use Rattle.std.specs.Fmt.{signed_decimal};
ghost use Rattle.seq_values.specs.Text.{letter_for, escaped, atom_text};

use crate::line::Line;
use crate::value::Value;
use itoa::Buffer;
use seq_vector::NoMemory;

/// Appends the text of an atom or a function and answers true. It answers false and appends nothing exactly where the value is a vector, a node, a reduced value or a cell. After `NoMemory` the line is as it was.
pub fn print_atom(value: &Value, line: &mut Line) -> Result<bool, NoMemory>
    ensures printed { IfOk result (λ printed. printed ≡ is_some (atom_text value.now)) }
    ensures text { OnOk result (line.new ≡ line.old ++ unwrap_or (atom_text value.now) []) }
    ensures refused { OnErr result (line.new ≡ line.old) }
{
    let before = line.bytes().len();
    let appended = match value {
        Value::Nil => line.append(b"nil"),
        Value::Bool(true) => line.append(b"true"),
        Value::Bool(false) => line.append(b"false"),
        Value::Int(number) => append_number(*number, line),
        Value::Keyword(name) => append_keyword(name.bytes(), line),
        Value::Text(text) => append_quoted(text.bytes(), line),
        Value::Function(_) => line.append(b"#fn"),
        _ => return Ok(false),
    };
    match appended {
        Ok(()) => Ok(true),
        Err(why) => {
            line.cut(before);
            Err(why)
        }
    }
}

/// Appends a number in decimal, with a minus sign before a negative one.
fn append_number(number: i64, line: &mut Line) -> Result<(), NoMemory>
    ensures ok { OnOk result (line.new ≡ line.old ++ signed_decimal number) }
    ensures refused { OnErr result (line.new ≡ line.old) }
{
    let mut digits = Buffer::new();
    line.append(digits.format(number).as_bytes())
}

/// Appends a colon and the name. After an error the line begins as it did.
fn append_keyword(name: &[u8], line: &mut Line) -> Result<(), NoMemory>
    ensures ok { OnOk result (line.new ≡ line.old ++ 58 ∷ name.now) }
    ensures refused { OnErr result (take (length line.old) line.new ≡ line.old) }
{
    line.push(b':')?;
    line.append(name)
}

#[tactic(auto, using(crate::proofs::LineLemmas::begins, crate::proofs::LineLemmas::begins_alike, crate::proofs::LineLemmas::begins_through))]
/// Appends a text in quotes. After an error the line begins as it did.
fn append_quoted(bytes: &[u8], line: &mut Line) -> Result<(), NoMemory>
    ensures ok { OnOk result (line.new ≡ line.old ++ 34 ∷ flat_map escaped bytes.now ++ 34 ∷ []) }
    ensures refused { OnErr result (take (length line.old) line.new ≡ line.old) }
{
    line.push(b'"')?;
    append_escaped(bytes, line)?;
    line.push(b'"')
}

#[tactic(auto, using(crate::proofs::LineLemmas::begins, crate::proofs::LineLemmas::begins_alike))]
/// Appends the bytes of a text with their escapes. After an error the line begins as it did.
fn append_escaped(bytes: &[u8], line: &mut Line) -> Result<(), NoMemory>
    ensures ok { OnOk result (line.new ≡ line.old ++ flat_map escaped bytes.now) }
    ensures refused { OnErr result (take (length line.old) line.new ≡ line.old) }
{
    for byte in bytes {
        push_escaped(*byte, line)?;
    }
    Ok(())
}

/// Appends a byte as it is shown inside the quotes.
fn push_escaped(byte: u8, line: &mut Line) -> Result<(), NoMemory>
    ensures ok { OnOk result (line.new ≡ line.old ++ escaped byte) }
    ensures refused { OnErr result (line.new ≡ line.old) }
{
    match letter_of(byte) {
        None => line.push(byte),
        Some(letter) => line.append(&[b'\\', letter]),
    }
}

/// The letter after the backslash, for a byte that is shown by an escape.
fn letter_of(byte: u8) -> Option<u8>
    ensures { result ≡ letter_for byte }
{
    match byte {
        b'\n' => Some(b'n'),
        b'\t' => Some(b't'),
        b'\r' => Some(b'r'),
        b'\x0c' => Some(b'f'),
        b'\x08' => Some(b'b'),
        b'"' => Some(b'"'),
        b'\\' => Some(b'\\'),
        _ => None,
    }
}
