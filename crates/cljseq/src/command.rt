//! All that the program does, from its words, its input and its output.
ghost use Rattle.std.specs.Prelude.{◌≡◌, ◌≢◌, ◌⊎◌, ℕ, List, None, MatchResult, OnOk};
ghost use Rattle.std.specs.Io.KnownBytes.{Appends, IsAtEnd, Keeps};
ghost use Rattle.clj_script.specs.Seen.{seen};
ghost use Rattle.cljseq.specs.Answers.{IfKnown, IsAnswer, IsBook, IsEnd, MeansText, Printed, PrintedPart, Reads, status_at};
ghost use Rattle.command_line.specs.Asking.{Asks, IsAsked, IsFaulty};
ghost use Rattle.command_line.specs.Settings.{texts};
ghost use Rattle.command_line.specs.declared.given.Options.{Options as Asked};
ghost use Rattle.seq_base.specs.Causes.{Rose};
ghost use Rattle.seq_run.specs.Lines.{AppendsPart, refusal_line};

use crate::check::{print_forms, read_program};
use crate::made::answer_made;
use cell_book::Book;
use clj_reader::Place;
use clj_script::Program;
use command_line::{Options, Request, asked};
use lone_run::{Evaluator, RunEnd, run_alone};
use seq_base::{ReadStop, Sink, Source, WriteStop, read_whole};
use seq_run::{Refusal, ScriptStop, Status, print_refusal};
use std::alloc::Global;

/// The most bytes that a script may have.
const MAX_BYTES: usize = 1_048_576;

/// The refusal of a text with more bytes.
const TOO_LONG: Refusal = Refusal {
    number: 6,
    place: Place { line: 1, column: 1 },
};

/// How the command ended.
#[derive(Drop)]
pub struct CommandEnd {
    /// How it ended.
    pub status: Status,
    /// The book that a script was run over, where the words ask for a run and all of the script was run.
    pub book: Option<Book>,
}

/// All that the program does. The first word is its name and isn't looked at.
///
/// `NoMemory` may come at any point, and no clause ties it to a cause.
pub fn command<E: Evaluator, I: Source, O: Sink>(
    alloc: Global,
    words: &[String],
    input: &mut I,
    out: &mut O,
) -> CommandEnd
    ensures usage { result.status ≡ Status.Usage → IsFaulty (texts words.now) }
    ensures faulty { IsFaulty (texts words.now) → (result.status ≡ Status.Usage) ⊎ (result.status ≡ Status.NoMemory) }
    ensures asked { (result.status ≡ Status.Usage → ⊥) → (result.status ≡ Status.NoMemory → ⊥) → IsAsked (texts words.now) }
    ensures unread { result.status ≡ Status.Usage → Keeps (I.left input.old) (I.left input.new) }
    ensures unasked { (options : Asked) → Asks (texts words.now) options → (Reads options.request → ⊥) → Keeps (I.left input.old) (I.left input.new) }
    ensures unwritten { (result.status ≡ Status.Usage) ⊎ (result.status ≡ Status.ReadFault) → Keeps (O.written out.old) (O.written out.new) }

    // A finished run has the status and the output of the whole text, by what was asked; the text was read to its end where it was run or looked at.
    ensures answered { (options : Asked) → Asks (texts words.now) options → IsAnswer result.status
        → IfKnown options.request (I.left input.old) (λ text. Printed options text result.status (O.written out.old) (O.written out.new)) }
    ensures whole { (options : Asked) → Asks (texts words.now) options → Reads options.request → IsEnd result.status → IsAtEnd (I.left input.new) }

    // A run that was cut off wrote a prefix of that output.
    ensures part { (options : Asked) → Asks (texts words.now) options → (result.status ≡ Status.WriteFault) ⊎ (result.status ≡ Status.NoMemory)
        → IfKnown options.request (I.left input.old) (λ text. PrintedPart options text (O.written out.old) (O.written out.new)) }
    ensures read { result.status ≡ Status.ReadFault → Rose (I.faults input.old) (I.faults input.new) }
    ensures write { result.status ≡ Status.WriteFault → Rose (O.faults out.old) (O.faults out.new) }

    // A book is handed back exactly after a whole run, and it is that of the run.
    ensures book { (options : Asked) → Asks (texts words.now) options → IfKnown options.request (I.left input.old) (λ text. IsBook options text result.status result.book) }
    ensures bookless { result.status ≢ Status.Done → result.book ≡ None }
{
    match understood(alloc, words) {
        Ok(options) => answer::<E, I, O>(alloc, options, input, out),
        Err(status) => CommandEnd { status, book: None },
    }
}

/// What the words ask for, or the status of a command whose words ask for nothing or couldn't be read.
fn understood(alloc: Global, words: &[String]) -> Result<Options, Status>
    ensures { MatchResult result (λ options. Asks (texts words.now) options) (λ status. ((status ≡ Status.Usage) × IsFaulty (texts words.now)) ⊎ (status ≡ Status.NoMemory)) }
{
    match asked(alloc, words) {
        Ok(Some(options)) => Ok(options),
        Ok(None) => Err(Status::Usage),
        Err(_) => Err(Status::NoMemory),
    }
}

/// Answers what was asked.
fn answer<E: Evaluator, I: Source, O: Sink>(
    alloc: Global,
    options: Options,
    input: &mut I,
    out: &mut O,
) -> CommandEnd
    ensures unasked { (Reads options.request → ⊥) → Keeps (I.left input.old) (I.left input.new) }
    ensures unwritten { result.status ≡ Status.ReadFault → Keeps (O.written out.old) (O.written out.new) }
    ensures answered { IsAnswer result.status → IfKnown options.request (I.left input.old) (λ text. Printed options text result.status (O.written out.old) (O.written out.new)) }
    ensures whole { Reads options.request → IsEnd result.status → IsAtEnd (I.left input.new) }
    ensures part { (result.status ≡ Status.WriteFault) ⊎ (result.status ≡ Status.NoMemory)
        → IfKnown options.request (I.left input.old) (λ text. PrintedPart options text (O.written out.old) (O.written out.new)) }
    ensures read { result.status ≡ Status.ReadFault → Rose (I.faults input.old) (I.faults input.new) }
    ensures write { result.status ≡ Status.WriteFault → Rose (O.faults out.old) (O.faults out.new) }
    ensures book { IfKnown options.request (I.left input.old) (λ text. IsBook options text result.status result.book) }
    ensures bookless { result.status ≢ Status.Done → result.book ≡ None }
    ensures used { result.status ≢ Status.Usage }
{
    match options.request {
        Request::Generate(number) => CommandEnd {
            status: answer_made::<E, O>(alloc, number, options, out),
            book: None,
        },
        Request::Run => answer_read::<E, I, O>(alloc, options, input, out),
        Request::Check => answer_read::<E, I, O>(alloc, options, input, out),
    }
}

/// Answers what was asked of the script that is read.
fn answer_read<E: Evaluator, I: Source, O: Sink>(
    alloc: Global,
    options: Options,
    input: &mut I,
    out: &mut O,
) -> CommandEnd
    requires { Reads options.request }
    ensures unwritten { result.status ≡ Status.ReadFault → Keeps (O.written out.old) (O.written out.new) }
    ensures answered { IsAnswer result.status → IfKnown options.request (I.left input.old) (λ text. Printed options text result.status (O.written out.old) (O.written out.new)) }
    ensures whole { IsEnd result.status → IsAtEnd (I.left input.new) }
    ensures part { (result.status ≡ Status.WriteFault) ⊎ (result.status ≡ Status.NoMemory)
        → IfKnown options.request (I.left input.old) (λ text. PrintedPart options text (O.written out.old) (O.written out.new)) }
    ensures read { result.status ≡ Status.ReadFault → Rose (I.faults input.old) (I.faults input.new) }
    ensures write { result.status ≡ Status.WriteFault → Rose (O.faults out.old) (O.faults out.new) }
    ensures book { IfKnown options.request (I.left input.old) (λ text. IsBook options text result.status result.book) }
    ensures bookless { result.status ≢ Status.Done → result.book ≡ None }
    ensures used { result.status ≢ Status.Usage }
{
    match read_whole(alloc, input, MAX_BYTES) {
        Err(ReadStop::Failed) => CommandEnd {
            status: Status::ReadFault,
            book: None,
        },
        Err(ReadStop::Memory) => CommandEnd {
            status: Status::NoMemory,
            book: None,
        },
        Err(ReadStop::TooLong) => CommandEnd {
            status: refuse(alloc, TOO_LONG, out),
            book: None,
        },
        Ok(text) => answer_text::<E, O>(alloc, options, &text, out),
    }
}

/// Answers what was asked of a script's text.
fn answer_text<E: Evaluator, O: Sink>(
    alloc: Global,
    options: Options,
    text: &[u8],
    out: &mut O,
) -> CommandEnd
    requires { Reads options.request }
    ensures answered { IsAnswer result.status → Printed options text.now result.status (O.written out.old) (O.written out.new) }
    ensures part { PrintedPart options text.now (O.written out.old) (O.written out.new) }
    ensures write { result.status ≡ Status.WriteFault → Rose (O.faults out.old) (O.faults out.new) }
    ensures book { IsBook options text.now result.status result.book }
    ensures bookless { result.status ≢ Status.Done → result.book ≡ None }
    ensures others { (result.status ≢ Status.Usage) × (result.status ≢ Status.ReadFault) }
{
    match read_program(alloc, text) {
        Ok(program) => answer_program::<E, O>(alloc, options, &program, out),
        Err(ScriptStop::Refused(refusal)) => CommandEnd {
            status: refuse(alloc, refusal, out),
            book: None,
        },
        Err(ScriptStop::Memory) => CommandEnd {
            status: Status::NoMemory,
            book: None,
        },
    }
}

/// Runs a program, or tells how many forms it has.
fn answer_program<E: Evaluator, O: Sink>(
    alloc: Global,
    options: Options,
    program: &Program,
    out: &mut O,
) -> CommandEnd
    requires { Reads options.request }
    ensures answered { (text : List ℕ) → MeansText text (seen program.now) → IsAnswer result.status → Printed options text result.status (O.written out.old) (O.written out.new) }
    ensures part { (text : List ℕ) → MeansText text (seen program.now) → PrintedPart options text (O.written out.old) (O.written out.new) }
    ensures write { result.status ≡ Status.WriteFault → Rose (O.faults out.old) (O.faults out.new) }
    ensures book { (text : List ℕ) → MeansText text (seen program.now) → IsBook options text result.status result.book }
    ensures bookless { result.status ≢ Status.Done → result.book ≡ None }
    ensures others { (result.status ≢ Status.Usage) × (result.status ≢ Status.ReadFault) }
{
    match options.request {
        Request::Check => CommandEnd {
            status: ended(Status::Done, print_forms(alloc, program.tops(), out)),
            book: None,
        },
        _ => {
            let run = run_alone::<E, O>(alloc, program, options.limits, out);
            CommandEnd {
                status: status_of(run.end),
                book: run.book,
            }
        }
    }
}

/// Writes the line of a refusal.
fn refuse<O: Sink>(alloc: Global, refusal: Refusal, out: &mut O) -> Status
    ensures refused { result ≡ Status.ScriptRefused → Appends (O.written out.old) (O.written out.new) (refusal_line refusal.number refusal.place) }
    ensures part { AppendsPart (O.written out.old) (O.written out.new) (refusal_line refusal.number refusal.place) }
    ensures write { result ≡ Status.WriteFault → Rose (O.faults out.old) (O.faults out.new) }
    ensures either { (result ≡ Status.ScriptRefused) ⊎ (result ≡ Status.WriteFault) ⊎ (result ≡ Status.NoMemory) }
{
    ended(Status::ScriptRefused, print_refusal(alloc, refusal, out))
}

/// The status of a run that ends so.
pub(crate) fn status_of(end: RunEnd) -> Status
    ensures { result ≡ status_at end }
{
    match end {
        RunEnd::Done => Status::Done,
        RunEnd::DefThrew => Status::DefThrew,
        RunEnd::CellsSpent => Status::CellsSpent,
        RunEnd::WriteFault => Status::WriteFault,
        RunEnd::NoMemory => Status::NoMemory,
    }
}

/// The status of a run that ends with this one where its output was written.
pub(crate) fn ended(status: Status, written: Result<(), WriteStop>) -> Status
    ensures done { OnOk written (result ≡ status) }
    ensures failed { written ≡ Err WriteStop.Failed → result ≡ Status.WriteFault }
    ensures memory { written ≡ Err WriteStop.Memory → result ≡ Status.NoMemory }
{
    match written {
        Ok(()) => status,
        Err(WriteStop::Failed) => Status::WriteFault,
        Err(WriteStop::Memory) => Status::NoMemory,
    }
}
