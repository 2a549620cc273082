//! A script that is made from a number, run, and told of.
ghost use Rattle.std.specs.Prelude.{◌≡◌, ◌≢◌, List, ℕ, IfOk};
ghost use Rattle.clj_script.specs.Seen.{seen};
ghost use Rattle.cljseq.specs.Answers.{IsAnswer, IsMade, Printed, PrintedPart, RanMade, cut_off};
ghost use Rattle.command_line.specs.declared.given.Request.TheVariants as Request;
ghost use Rattle.seq_base.specs.Causes.{Rose};

use crate::check::read_program;
use crate::command::{ended, status_of};
use clj_script::Program;
use command_line::Options;
use lone_run::{Evaluator, RunEnd, run_alone};
use script_maker::{generate, summary};
use seq_base::{Limits, MemorySink, Sink, write_whole};
use seq_run::Status;
use seq_vector::NoMemory;
use std::alloc::Global;

/// How many bytes of its output a run in memory hands on at once.
const STEP: usize = 4096;

/// What is told of a script that was made and run.
#[derive(Drop)]
struct Made {
    status: Status,
    summary: Vec<u8>,
}

/// Runs the script that is made from a number, and writes how many forms it has, how many lines its run writes, and the last of them.
pub fn answer_made<E: Evaluator, O: Sink>(
    alloc: Global,
    number: u32,
    options: Options,
    out: &mut O,
) -> Status
    requires { options.request ≡ Request.Generate number }
    ensures answered { (text : List ℕ) → IsAnswer result → Printed options text result (O.written out.old) (O.written out.new) }
    ensures part { (text : List ℕ) → PrintedPart options text (O.written out.old) (O.written out.new) }
    ensures write { result ≡ Status.WriteFault → Rose (O.faults out.old) (O.faults out.new) }
    ensures others { (result ≢ Status.Usage) × (result ≢ Status.ReadFault) }
{
    match make_and_run::<E>(alloc, number, options.limits) {
        Ok(made) => ended(made.status, write_whole(out, &made.summary)),
        Err(NoMemory) => Status::NoMemory,
    }
}

/// Makes a script and runs it. The script is one that the reader and the compiler take; were it refused, that would be told as want of memory.
fn make_and_run<E: Evaluator>(alloc: Global, number: u32, limits: Limits) -> Result<Made, NoMemory>
    ensures { IfOk result (λ made. IsMade number limits made.status made.summary.items) }
{
    let text = generate(alloc, number)?;
    match read_program(alloc, &text) {
        Ok(program) => run_made::<E>(alloc, &program, limits),
        Err(_) => Err(NoMemory),
    }
}

/// Runs a program and keeps what it writes in memory.
fn run_made<E: Evaluator>(
    alloc: Global,
    program: &Program,
    limits: Limits,
) -> Result<Made, NoMemory>
    ensures { IfOk result (λ made. RanMade (seen program.now) limits made.status made.summary.items) }
{
    let mut sink = MemorySink::new(alloc, STEP, Vec::new(alloc));
    let run = run_alone::<E, MemorySink>(alloc, program, limits, &mut sink);
    if is_cut_off(run.end) {
        return Err(NoMemory);
    }
    let summary = summary(alloc, program.tops(), sink.bytes())?;
    Ok(Made {
        status: status_of(run.end),
        summary,
    })
}

/// The run was cut off before its end.
fn is_cut_off(end: RunEnd) -> bool
    ensures { result ≡ cut_off end }
{
    matches!(end, RunEnd::WriteFault | RunEnd::NoMemory)
}
