//! From the bytes of a script to its forms.
ghost use Rattle.std.specs.Prelude.{◌≡◌, ◌⊎◌, ◌≤◌, List, [], length, IfOk};
ghost use Rattle.clj_reader.specs.declared.form.Form.{Form};
ghost use Rattle.clj_reader.specs.declared.refusal.ReadRefusal.{ReadRefusal};
ghost use Rattle.clj_reader.specs.Places.{start, behind_all};
ghost use Rattle.clj_reader.specs.Tokens.{tokens_of};
ghost use Rattle.clj_reader.specs.Nests.{Gives, assembled};
ghost use Rattle.clj_reader.specs.Scripts.{IsScript, IsRefused, IsAnswer};

use crate::cursor::{Cursor, behind};
use crate::form::Forms;
use crate::nest::{Nest, refused};
use crate::place::Place;
use crate::refusal::ReadFormsStop;
use crate::scan::next_token;
use std::alloc::Global;
use std::str;

/// How many bytes a script may have.
const LONGEST: usize = 1_048_576;

/// Where a text begins.
const START: Place = Place { line: 1, column: 1 };

/// The forms of a script, or its refusal.
///
/// A text longer than 1,048,576 bytes is refused as 6 at its start, and else one that isn't UTF-8 as 1 behind its
/// longest front that is. Then the first token that is refused from the left gives the refusal, and else the
/// innermost bracket that is open at the end.
pub fn read_forms(alloc: Global, bytes: &[u8]) -> Result<Forms, ReadFormsStop>
    // What is read is the script of these forms.
    ensures found { IfOk result (λ forms. IsScript bytes.now forms) }
    // The script of some forms is read as these, unless memory runs out.
    ensures only { (forms : List Form) → IsScript bytes.now forms
        → (result ≡ Ok forms) ⊎ (result ≡ Err ReadFormsStop.Memory) }
    // What is refused has this refusal.
    ensures refused { (r : ReadRefusal) → result ≡ Err (ReadFormsStop.Refused r)
        → IsRefused bytes.now r }
    // What has a refusal is refused so, unless memory runs out.
    ensures refuses { (r : ReadRefusal) → IsRefused bytes.now r
        → (result ≡ Err (ReadFormsStop.Refused r)) ⊎ (result ≡ Err ReadFormsStop.Memory) }
{
    read_text(alloc, bytes)
}

/// The same, as one case for each answer.
#[tactic(auto, using(crate::proofs::ScriptLemmas::answer_too_long, crate::proofs::ScriptLemmas::answer_not_utf8, crate::proofs::ScriptLemmas::answer_of_pass))]
fn read_text(alloc: Global, bytes: &[u8]) -> Result<Forms, ReadFormsStop>
    ensures { IsAnswer bytes.now result }
{
    if bytes.len() > LONGEST {
        return Err(refused(6, START));
    }
    match str::from_utf8(bytes) {
        Ok(_) => read_tokens(alloc, bytes),
        Err(error) => Err(refused(1, place_behind(&bytes[..error.valid_up_to()]))),
    }
}

/// The place behind a text.
fn place_behind(bytes: &[u8]) -> Place
    requires { length bytes.now ≤ 1048576 }
    ensures { result ≡ behind_all bytes.now start }
{
    let mut place = START;
    for byte in bytes {
        place = behind(*byte, place);
    }
    place
}

/// The forms of a text that is short enough, by its tokens.
fn read_tokens(alloc: Global, bytes: &[u8]) -> Result<Forms, ReadFormsStop>
    requires { length bytes.now ≤ 1048576 }
    ensures { Gives (λ read. read) result (assembled [] [] (tokens_of bytes.now)) }
{
    let mut nest = Nest::new(alloc);
    let mut cursor = Cursor {
        at: 0,
        place: START,
    };
    loop {
        let Some((lexeme, next)) = next_token(alloc, bytes, cursor)? else {
            return nest.finish();
        };
        nest = nest.take(alloc, lexeme)?;
        cursor = next;
    }
}
