//! The text so far, and what waits for more of it.
ghost use Rattle.std.specs.Prelude.{◌≡◌, Bool, [], ◌∷◌, ◌++◌, is_some, unwrap_or, IfOk};
ghost use Rattle.seq_meaning.specs.Prints.{spaced};
ghost use Rattle.seq_values.specs.Model as M;
ghost use Rattle.seq_values.specs.Plain.{plain};
ghost use Rattle.seq_values.specs.Text.{atom_text};

use crate::state::{Around, Printing};
use seq_turns::Proper;
use seq_values::{Line, Text, Value, print_atom};
use seq_vector::NoMemory;
use std::alloc::Global;

/// Lets a value go.
pub(crate) fn let_go<T: Drop>(_value: T) {}

/// A text as a value. It copies the bytes, once for a whole printing.
fn text_value(alloc: Global, text: &Line) -> Result<Proper, NoMemory>
    ensures { IfOk result (λ v. plain v.value ≡ M.text text.now) }
{
    let text = Text::of(alloc, text.bytes())?;
    Ok(Proper {
        value: Value::Text(text),
    })
}

impl Printing {
    /// No text, and nothing that waits. It takes no memory.
    pub(crate) fn new(alloc: Global) -> Printing
        ensures text { result.text ≡ [] }
        ensures around { result.around.items ≡ [] }
    {
        Printing {
            text: Line::new(alloc),
            around: Vec::new(alloc),
        }
    }

    /// More bytes at the end of the text.
    pub(crate) fn with(self, bytes: &[u8]) -> Result<Printing, NoMemory>
        ensures text { IfOk result (λ p. p.text ≡ self.text ++ bytes.now) }
        ensures around { IfOk result (λ p. p.around.items ≡ self.around.items) }
    {
        let Printing { mut text, around } = self;
        text.append(bytes)?;
        Ok(Printing { text, around })
    }

    /// A space at the end of the text, where an element comes before the next one.
    pub(crate) fn spaced(self, after: bool) -> Result<Printing, NoMemory>
        ensures text { IfOk result (λ p. p.text ≡ spaced after self.text) }
        ensures around { IfOk result (λ p. p.around.items ≡ self.around.items) }
    {
        if after {
            let printing = self.with(b" ")?;
            Ok(printing)
        } else {
            Ok(self)
        }
    }

    /// The text of an atom or a function at the end, and whether the value is one. Nothing where it is none.
    pub(crate) fn with_atom(self, value: &Value) -> Result<(bool, Printing), NoMemory>
        ensures printed { IfOk result (λ r. r.0 ≡ is_some (atom_text value.now)) }
        ensures text { IfOk result (λ r. r.1.text ≡ self.text ++ unwrap_or (atom_text value.now) []) }
        ensures around { IfOk result (λ r. r.1.around.items ≡ self.around.items) }
    {
        let Printing { mut text, around } = self;
        let printed = print_atom(value, &mut text)?;
        Ok((printed, Printing { text, around }))
    }

    /// One more value that waits, the innermost.
    pub(crate) fn within(self, innermost: Around) -> Result<Printing, NoMemory>
        ensures text { IfOk result (λ p. p.text ≡ self.text) }
        ensures around { IfOk result (λ p. p.around.items ≡ self.around.items ++ innermost ∷ []) }
    {
        let Printing { text, mut around } = self;
        match around.push(innermost) {
            Ok(()) => Ok(Printing { text, around }),
            Err(_) => Err(NoMemory),
        }
    }

    /// The text as a value.
    pub(crate) fn finished(self, alloc: Global) -> Result<Proper, NoMemory>
        ensures { IfOk result (λ v. plain v.value ≡ M.text self.text) }
    {
        let value = text_value(alloc, &self.text)?;
        Ok(value)
    }
}
