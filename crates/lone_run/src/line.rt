//! The lines of forms.
ghost use Rattle.std.specs.Prelude.{◌≡◌, ◌≤◌, ◌<◌, ◌++◌, ◌∷◌, [], ℕ, suc, length, slice_get, take, Some, IfOk, IfErr, OnOk};
ghost use Rattle.std.specs.Io.KnownBytes.{Appends};
ghost use Rattle.cell_book.specs.Counts.{totals_of};
ghost use Rattle.clj_script.specs.Seen.{seen, top_over, trees};
ghost use Rattle.clj_script.specs.Trees as tree;
ghost use Rattle.seq_base.specs.declared.limits.Limits.{Limits as Bounds};
ghost use Rattle.seq_base.specs.Causes.{Rose};
ghost use Rattle.seq_ledger.specs.Ledgers.{LedgerIn};
ghost use Rattle.seq_ledger.specs.Walks.{ComesToEnd};
ghost use Rattle.seq_table.specs.Outputs.{error_line as error_text, newline, Line as IsLine};
ghost use Rattle.seq_values.specs.Plain.{plain, plains};
ghost use Rattle.seq_values.specs.declared.value.Value.{Value as Coded};
ghost use Rattle.lone_run.specs.Running.{names_of};
ghost use Rattle.lone_run.specs.Stages.{HasLine};
ghost use Rattle.lone_run.specs.Writing.{bytes_of, def_text, prn_text, IsLineEnd, IsText, IsWriteEnd, Keeps};

use crate::ending::RunEnd;
use crate::given::Given;
use cell_book::{Book, PlainCells};
use clj_script::{Program, Top};
use seq_base::{Sink, Thrown, WriteStop, word_of, write_whole};
use seq_ledger::ledger_text;
use seq_values::{Line, Value};
use seq_vector::{NoMemory, PVec};
use std::alloc::Global;

/// What stands at the top with so many forms before it.
#[tactic(auto, using(crate::proofs::Tops::is_there, crate::proofs::Tops::stands_at))]
pub(crate) fn form_at(program: &Program, before: u32) -> Top
    requires within { before < length (seen program.now).tops }
    requires small { before < 4294967295 }
    ensures { slice_get (seen program.now).tops before ≡ Some (top_over (trees program.now) result) }
{
    match program.top(before + 1) {
        Some(top) => top,
        None => unreachable!(),
    }
}

/// The text of a `prn`, with its newline.
fn text_line(alloc: Global, text: &[u8]) -> Result<Line, NoMemory>
    ensures { IfOk result (λ line. line ≡ text.now ++ newline) }
{
    let mut line = Line::new(alloc);
    line.append(text)?;
    line.push(b'\n')?;
    Ok(line)
}

/// The line of an error.
fn error_line(alloc: Global, why: Thrown) -> Result<Line, NoMemory>
    ensures { IfOk result (λ line. line ≡ error_text why) }
{
    let mut line = Line::new(alloc);
    line.append(b"threw ")?;
    line.append(word_of(why))?;
    line.push(b'\n')?;
    Ok(line)
}

/// The line of a `prn`.
fn prn_line(alloc: Global, given: &Given) -> Result<Line, NoMemory>
    requires { IsText given.now }
    ensures { IfOk result (λ line. line ≡ prn_text given.now) }
{
    match given {
        Given::Gave(Value::Text(text)) => text_line(alloc, text.bytes()),
        Given::Gave(_) => unreachable!(),
        Given::Threw(why) => error_line(alloc, *why),
    }
}

/// The line of a `def` that threw.
fn def_line(alloc: Global, given: &Given) -> Result<Option<Line>, NoMemory>
    ensures { IfOk result (λ line. bytes_of line ≡ def_text given.now) }
{
    match given {
        Given::Gave(_) => Ok(None),
        Given::Threw(why) => {
            let line = error_line(alloc, *why)?;
            Ok(Some(line))
        }
    }
}

/// The ledger, with the values of the `def` forms before.
fn ledger_line(
    alloc: Global,
    program: &Program,
    book: &mut Book,
    defined: &PVec<Value>,
) -> Result<Line, NoMemory>
    requires ends { (i : ℕ) (v : Coded) → slice_get defined.now i ≡ Some v → ComesToEnd book.old (plain v) }
    ensures text { IfOk result (λ line. LedgerIn book.old (seen program.now) (plains defined.now) (totals_of book.old.cells) line) }
    ensures same { book.new ≡ book.old }
{
    let totals = book.totals();
    let mut cells = PlainCells::over(book);
    ledger_text(alloc, &mut cells, program, defined, totals)
}

/// The line of the form that has so many before it, and none where it writes nothing.
pub(crate) fn line_of(
    alloc: Global,
    program: &Program,
    before: u32,
    book: &mut Book,
    defined: &PVec<Value>,
    given: &Given,
) -> Result<Option<Line>, NoMemory>
    requires within { before < length (seen program.now).tops }
    requires small { before < 4294967295 }
    requires ready { (limits : Bounds) × HasLine (seen program.now) limits before book.old given.now defined.now }
    ensures line { (limits : Bounds) → HasLine (seen program.now) limits before book.old given.now defined.now → IfOk result (λ line. IsLine (names_of limits) (seen program.now) limits.steps (suc before) (bytes_of line)) }
    ensures same { book.new ≡ book.old }
{
    match form_at(program, before) {
        Top::Def { .. } => def_line(alloc, given),
        Top::Defn => Ok(None),
        Top::Prn { .. } => {
            let line = prn_line(alloc, given)?;
            Ok(Some(line))
        }
        Top::Ledger => {
            let line = ledger_line(alloc, program, book, defined)?;
            Ok(Some(line))
        }
    }
}

/// Writes a line, if there is one.
#[tactic(auto, using(seq_base::proofs::WholeLemmas::appends_nil))]
pub(crate) fn write_line<O: Sink>(line: Option<Line>, out: &mut O) -> Result<(), RunEnd>
    ensures ok { OnOk result (Appends (O.written out.old) (O.written out.new) (bytes_of line)) }
    ensures prefix { (n : ℕ) × Appends (O.written out.old) (O.written out.new) (take n (bytes_of line)) }
    ensures later { O.faults out.old ≤ O.faults out.new }
    ensures ended { IfErr result (λ end. IsWriteEnd end) }
    ensures write { result ≡ Err RunEnd.WriteFault → Rose (O.faults out.old) (O.faults out.new) }
{
    let Some(line) = line else {
        return Ok(());
    };
    match write_whole(out, line.bytes()) {
        Ok(()) => Ok(()),
        Err(WriteStop::Failed) => Err(RunEnd::WriteFault),
        Err(WriteStop::Memory) => Err(RunEnd::NoMemory),
    }
}

/// One more value.
fn push(alloc: Global, defined: &mut PVec<Value>, value: Value) -> Result<(), RunEnd>
    requires { length defined.old < 4294967295 }
    ensures ok { OnOk result (defined.new ≡ defined.old ++ value ∷ []) }
    ensures ended { IfErr result (λ end. end ≡ RunEnd.NoMemory) }
{
    match defined.push(alloc, value) {
        Ok(more) => {
            *defined = more;
            Ok(())
        }
        Err(_) => Err(RunEnd::NoMemory),
    }
}

/// After the line of a form, keeps the value of a `def`. A `def` that threw ends the run.
pub(crate) fn keep(
    alloc: Global,
    program: &Program,
    before: u32,
    defined: &mut PVec<Value>,
    given: Given,
) -> Result<(), RunEnd>
    requires within { before < length (seen program.now).tops }
    requires small { before < 4294967295 }
    requires room { length defined.old < 4294967295 }
    ensures ok { (t : tree.Top) → slice_get (seen program.now).tops before ≡ Some t → OnOk result (Keeps t given defined.old defined.new) }
    ensures ended { (t : tree.Top) → slice_get (seen program.now).tops before ≡ Some t → IfErr result (λ end. IsLineEnd t given end) }
{
    match form_at(program, before) {
        Top::Def { .. } => match given {
            Given::Gave(value) => push(alloc, defined, value),
            Given::Threw(_) => Err(RunEnd::DefThrew),
        },
        Top::Defn | Top::Prn { .. } | Top::Ledger => Ok(()),
    }
}
