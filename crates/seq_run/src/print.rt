//! The line of a refusal.
ghost use Rattle.std.specs.Prelude.{◌≡◌, ◌≤◌, OnOk};
ghost use Rattle.std.specs.Io.KnownBytes.{Appends};
ghost use Rattle.seq_base.specs.Causes.{Rose};
ghost use Rattle.seq_run.specs.Lines.{AppendsPart, refusal_line};

use crate::script::Refusal;
use seq_base::{Sink, WriteStop, write_whole};
use std::alloc::Global;

/// Writes the line of a refusal.
pub fn print_refusal<O: Sink>(alloc: Global, refusal: Refusal, out: &mut O) -> Result<(), WriteStop>
    ensures ok { OnOk result (Appends (O.written out.old) (O.written out.new) (refusal_line refusal.number refusal.place)) }
    ensures part { AppendsPart (O.written out.old) (O.written out.new) (refusal_line refusal.number refusal.place) }
    ensures later { O.faults out.old ≤ O.faults out.new }
    ensures failed { result ≡ Err WriteStop.Failed → Rose (O.faults out.old) (O.faults out.new) }
{
    let number = refusal.number;
    let line = refusal.place.line;
    let column = refusal.place.column;
    let Ok(text) = format!(in alloc; "refused {number} {line}:{column}\n") else {
        return Err(WriteStop::Memory);
    };
    write_whole(out, text.as_bytes())
}
