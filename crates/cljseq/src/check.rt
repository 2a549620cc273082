//! From a script's text to its program, and the line of a script that is looked at alone.
ghost use Rattle.std.specs.Prelude.{◌≡◌, ◌≤◌, IfOk, OnOk};
ghost use Rattle.std.specs.Io.KnownBytes.{Appends};
ghost use Rattle.clj_script.specs.Seen.{seen};
ghost use Rattle.cljseq.specs.Answers.{MeansText, RefusesText, refusal_at};
ghost use Rattle.seq_base.specs.Causes.{Rose};
ghost use Rattle.seq_run.specs.Lines.{AppendsPart};
ghost use Rattle.seq_run.specs.declared.script.Refusal.{Refusal as Refused};
ghost use Rattle.seq_table.specs.Answers.{forms_line};

use clj_reader::read_forms;
use clj_script::{Program, compile};
use seq_base::{Sink, WriteStop, write_whole};
use seq_run::ScriptStop;
use std::alloc::Global;

/// The program of a text, or its refusal: that of the reader, else the least of the compiler.
pub fn read_program(alloc: Global, text: &[u8]) -> Result<Program, ScriptStop>
    ensures program { IfOk result (λ program. MeansText text.now (seen program)) }
    ensures refused { (r : Refused) → result ≡ Err (ScriptStop.Refused r) → RefusesText text.now (refusal_at r.number r.place) }
{
    let forms = read_forms(alloc, text)?;
    let program = compile(alloc, &forms)?;
    Ok(program)
}

/// Writes how many forms there are.
pub fn print_forms<O: Sink>(alloc: Global, count: u32, out: &mut O) -> Result<(), WriteStop>
    ensures ok { OnOk result (Appends (O.written out.old) (O.written out.new) (forms_line count)) }
    ensures part { AppendsPart (O.written out.old) (O.written out.new) (forms_line count) }
    ensures later { O.faults out.old ≤ O.faults out.new }
    ensures failed { result ≡ Err WriteStop.Failed → Rose (O.faults out.old) (O.faults out.new) }
{
    let Ok(line) = format!(in alloc; "forms {count}\n") else {
        return Err(WriteStop::Memory);
    };
    write_whole(out, line.as_bytes())
}
