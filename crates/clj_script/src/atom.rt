//! The literals of a script.
ghost use Rattle.std.specs.Prelude.{◌≡◌, true, IfOk};
ghost use Rattle.clj_script.specs.Literals.{literal_of, literal_of_atom, is_written};

use seq_values::{Text, Value};
use seq_vector::{NoMemory, Share};
use std::alloc::AllocError;

/// What a script writes without brackets, but for symbols.
#[derive(Drop)]
pub(crate) enum Atom {
    Nil,
    Bool(bool),
    Int(i64),
    /// A keyword, by its name without the colon.
    Keyword(Text),
    Text(Text),
}

impl Atom {
    /// The value that is written.
    #[tactic(auto, using(crate::proofs::LiteralLemmas::nil_is, crate::proofs::LiteralLemmas::bool_is, crate::proofs::LiteralLemmas::int_is, crate::proofs::LiteralLemmas::keyword_is, crate::proofs::LiteralLemmas::text_is))]
    pub(crate) fn value(&self) -> Result<Value, AllocError>
        ensures { IfOk result (λ value. (literal_of value ≡ literal_of_atom self.now) × (is_written value ≡ true)) }
    {
        Ok(match self {
            Atom::Nil => Value::Nil,
            Atom::Bool(truth) => Value::Bool(*truth),
            Atom::Int(number) => Value::Int(*number),
            Atom::Keyword(name) => Value::Keyword(shared(name)?),
            Atom::Text(text) => Value::Text(shared(text)?),
        })
    }
}

/// A text for one more owner.
fn shared(text: &Text) -> Result<Text, AllocError>
    ensures { IfOk result (λ copy. copy ≡ text.now) }
{
    match text.share() {
        Ok(text) => Ok(text),
        Err(NoMemory) => Err(AllocError),
    }
}
