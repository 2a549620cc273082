//! The run of a program.
ghost use Rattle.std.specs.Prelude.{◌≡◌, ◌≢◌, ◌≤◌, ◌<◌, ◌++◌, ℕ, suc, List, length, IfErr, OnOk};
ghost use Rattle.std.specs.Io.KnownBytes.{Appends};
ghost use Rattle.cell_book.specs.Account.{new_book};
ghost use Rattle.clj_script.specs.Seen.{seen};
ghost use Rattle.seq_base.specs.declared.limits.Limits.{Limits as Bounds};
ghost use Rattle.seq_base.specs.Causes.{Rose};
ghost use Rattle.seq_table.specs.Outputs.{done};
ghost use Rattle.lone_run.specs.Running.{IsRunBook, RunBook, Wrote, WroteAll, WrotePart};
ghost use Rattle.lone_run.specs.Stages.{AtLine, RunAt};
ghost use Rattle.lone_run.specs.Writing.{Ends, GoesOn, GoesPart};

use crate::ending::{LoneRun, RunEnd};
use crate::evaluator::Evaluator;
use crate::force::force_form;
use crate::given::{Given, Halt};
use crate::line::{keep, line_of, write_line};
use cell_book::Book;
use clj_script::Program;
use seq_base::{Limits, Sink};
use seq_values::Value;
use seq_vector::PVec;
use std::alloc::Global;

/// Writes the line of a form that was evaluated with all its futures, and keeps the value of a `def`.
fn end_form<O: Sink>(
    alloc: Global,
    program: &Program,
    before: u32,
    book: &mut Book,
    defined: &mut PVec<Value>,
    given: Given,
    out: &mut O,
) -> Result<(), RunEnd>
    requires within { before < length (seen program.now).tops }
    requires small { before < 4294967295 }
    requires ready { (limits : Bounds) × (written : List ℕ) × AtLine (seen program.now) limits before book.old written given defined.old }
    ensures on { (limits : Bounds) (written : List ℕ) → AtLine (seen program.now) limits before book.old written given defined.old → OnOk result (GoesOn (seen program.now) limits written (suc before) book.new defined.new (O.written out.old) (O.written out.new)) }
    ensures ended { (limits : Bounds) (written : List ℕ) → AtLine (seen program.now) limits before book.old written given defined.old → IfErr result (λ end. Ends (seen program.now) limits end written (O.written out.old) (O.written out.new)) }
    ensures part { (limits : Bounds) (written : List ℕ) → AtLine (seen program.now) limits before book.old written given defined.old → GoesPart (seen program.now) limits written (O.written out.old) (O.written out.new) }
    ensures later { O.faults out.old ≤ O.faults out.new }
    ensures write { result ≡ Err RunEnd.WriteFault → Rose (O.faults out.old) (O.faults out.new) }
{
    let Ok(line) = line_of(alloc, program, before, book, defined, &given) else {
        return Err(RunEnd::NoMemory);
    };
    write_line(line, out)?;
    keep(alloc, program, before, defined, given)
}

/// Runs the form that has so many before it.
fn run_form<E: Evaluator, O: Sink>(
    alloc: Global,
    program: &Program,
    limits: Limits,
    before: u32,
    book: &mut Book,
    defined: &mut PVec<Value>,
    out: &mut O,
) -> Result<(), RunEnd>
    requires within { before < length (seen program.now).tops }
    requires small { before < 4294967295 }
    requires at { (written : List ℕ) × RunAt (seen program.now) limits book.old before written defined.old }
    ensures on { (written : List ℕ) → RunAt (seen program.now) limits book.old before written defined.old → OnOk result (GoesOn (seen program.now) limits written (suc before) book.new defined.new (O.written out.old) (O.written out.new)) }
    ensures ended { (written : List ℕ) → RunAt (seen program.now) limits book.old before written defined.old → IfErr result (λ end. Ends (seen program.now) limits end written (O.written out.old) (O.written out.new)) }
    ensures part { (written : List ℕ) → RunAt (seen program.now) limits book.old before written defined.old → GoesPart (seen program.now) limits written (O.written out.old) (O.written out.new) }
    ensures later { O.faults out.old ≤ O.faults out.new }
    ensures write { result ≡ Err RunEnd.WriteFault → Rose (O.faults out.old) (O.faults out.new) }
{
    match force_form::<E>(alloc, program, limits, before, book) {
        Ok(given) => end_form(alloc, program, before, book, defined, given, out),
        Err(Halt::Spent) => Err(RunEnd::CellsSpent),
        Err(Halt::Memory) => Err(RunEnd::NoMemory),
    }
}

/// Runs the forms of a program in order, over a new book.
fn run_forms<E: Evaluator, O: Sink>(
    alloc: Global,
    program: &Program,
    limits: Limits,
    book: &mut Book,
    out: &mut O,
) -> Result<(), RunEnd>
    requires new { book.old ≡ new_book limits.cells }
    ensures ok { OnOk result (WroteAll (seen program.now) limits done (O.written out.old) (O.written out.new)) }
    ensures book { OnOk result (RunBook (seen program.now) limits book.new) }
    ensures undone { IfErr result (λ end. end ≢ RunEnd.Done) }
    ensures ended { IfErr result (λ end. Wrote (seen program.now) limits end (O.written out.old) (O.written out.new)) }
    ensures part { WrotePart (seen program.now) limits (O.written out.old) (O.written out.new) }
    ensures later { O.faults out.old ≤ O.faults out.new }
    ensures write { result ≡ Err RunEnd.WriteFault → Rose (O.faults out.old) (O.faults out.new) }
{
    let mut defined = PVec::new();
    for before in 0..program.tops() {
        match run_form::<E, O>(alloc, program, limits, before, book, &mut defined, out) {
            Ok(()) => {}
            Err(end) => return Err(end),
        }
    }
    Ok(())
}

/// Runs the forms of a program in order, on one book. Each form is evaluated, then every open future, the one with the lowest number first, until none is open, and then the form's line is written by one `write_whole`. After a run to the end the book is handed back. The run stops after the line of a `def` that threw, and before the line of a form at which the parts pass the cell limit.
#[tactic(auto, using(crate::proofs::Running::wrote_nothing))]
pub fn run_alone<E: Evaluator, O: Sink>(
    alloc: Global,
    program: &Program,
    limits: Limits,
    out: &mut O,
) -> LoneRun
    ensures ran { Wrote (seen program.now) limits result.end (O.written out.old) (O.written out.new) }
    ensures part { WrotePart (seen program.now) limits (O.written out.old) (O.written out.new) }
    ensures book { IsRunBook (seen program.now) limits result.end result.book }
    ensures later { O.faults out.old ≤ O.faults out.new }
    ensures write { result.end ≡ RunEnd.WriteFault → Rose (O.faults out.old) (O.faults out.new) }
{
    let Ok(mut book) = Book::new(alloc, limits.cells) else {
        return LoneRun {
            end: RunEnd::NoMemory,
            book: None,
        };
    };
    match run_forms::<E, O>(alloc, program, limits, &mut book, out) {
        Ok(()) => LoneRun {
            end: RunEnd::Done,
            book: Some(book),
        },
        Err(end) => LoneRun { end, book: None },
    }
}
