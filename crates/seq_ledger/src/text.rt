//! The text of the ledger.
ghost use Rattle.std.specs.Prelude.{◌≡◌, ◌<◌, ℕ, true, ◌++◌, length, slice_get, Some, IfOk, OnOk};
ghost use Rattle.cell_book.specs.Account.{Account};
ghost use Rattle.clj_script.specs.Seen.{seen};
ghost use Rattle.seq_ledger.specs.Ledgers.{defined_by, DefinesAt, IsMore, LedgerIn, LineIn, LinesIn};
ghost use Rattle.seq_ledger.specs.Walks.{ComesToEnd};
ghost use Rattle.seq_table.specs.Outputs.{decimal as written, front_line, newline, text_of, totals_line};
ghost use Rattle.seq_values.specs.Plain.{plain, plains};
ghost use Rattle.seq_values.specs.declared.value.Value.{Value as Coded};

use crate::nodes::has_line;
use crate::state::Front;
use crate::walk::front;
use cell_book::{Cells, Totals};
use clj_script::{Program, Top};
use itoa::Buffer;
use seq_values::{Line, Value};
use seq_vector::{NoMemory, PVec};
use std::alloc::Global;

/// The ledger's lines, each with its newline: of each `def` form that was run, in order, its name and how much of its value is there, where that is a part or a node; and the totals.
/// `defined` has the values of these forms in order. The cells have to know the whole book, and in it each of these values has to come to its end.
/// It takes time linear in the forms, and for each line in the nodes and parts that its walk passes.
///
/// # Errors
///
/// `NoMemory` where the text has no room, or the value of a part can't be shared. The book is as it was.
pub fn ledger_text<C: Cells>(
    alloc: Global,
    cells: &mut C,
    program: &Program,
    defined: &PVec<Value>,
    totals: Totals,
) -> Result<Line, NoMemory>
    requires ready { C.ready cells.old }
    requires leads { C.leads cells.old ≡ true }
    requires ends { (a : Account) × C.noted cells.old a × ((i : ℕ) (v : Coded) → slice_get defined.now i ≡ Some v → ComesToEnd a (plain v)) }
    ensures text { (a : Account) → C.noted cells.old a → IfOk result (λ line. LedgerIn a (seen program.now) (plains defined.now) totals line) }
    ensures noted { (a : Account) → C.noted cells.old a → C.noted cells.new a }
    ensures held { (c : ℕ) → C.held cells.new c ≡ C.held cells.old c }
    ensures same { C.same cells.old cells.new }
{
    let mut line = Line::new(alloc);
    append_definitions(cells, program, defined, &mut line)?;
    append_totals(totals, &mut line)?;
    Ok(line)
}

/// The lines of the definitions, in order.
fn append_definitions<C: Cells>(
    cells: &mut C,
    program: &Program,
    defined: &PVec<Value>,
    line: &mut Line,
) -> Result<(), NoMemory>
    requires ready { C.ready cells.old }
    requires leads { C.leads cells.old ≡ true }
    requires ends { (a : Account) × C.noted cells.old a × ((i : ℕ) (v : Coded) → slice_get defined.now i ≡ Some v → ComesToEnd a (plain v)) }
    ensures lines { (a : Account) → C.noted cells.old a → OnOk result (IsMore (LinesIn a (defined_by (seen program.now).names (seen program.now).tops (plains defined.now))) line.old line.new) }
    ensures noted { (a : Account) → C.noted cells.old a → C.noted cells.new a }
    ensures held { (c : ℕ) → C.held cells.new c ≡ C.held cells.old c }
    ensures same { C.same cells.old cells.new }
{
    let mut done = 0usize;
    for before in 0..program.tops() {
        if let Some(name) = defined_at(program, before) {
            match defined.get(done) {
                Some(value) => append_definition(cells, program, name, value, line)?,
                None => return Ok(()),
            }
            done += 1;
        }
    }
    Ok(())
}

#[tactic(auto, using(crate::proofs::Defining::defines_name, crate::proofs::Defining::defines_defn, crate::proofs::Defining::defines_prn, crate::proofs::Defining::defines_ledger, crate::proofs::Defining::is_there))]
/// The number of the name that a form defines, which has so many forms before it.
fn defined_at(program: &Program, before: u32) -> Option<u32>
    requires within { before < length (seen program.now).tops }
    requires small { before < 4294967295 }
    ensures { DefinesAt (seen program.now).tops before result }
{
    match program.top(before + 1) {
        Some(Top::Def { name, .. }) => Some(name),
        Some(Top::Defn) => None,
        Some(Top::Prn { .. }) => None,
        Some(Top::Ledger) => None,
        None => unreachable!(),
    }
}

/// The line of a definition, or nothing.
fn append_definition<C: Cells>(
    cells: &mut C,
    program: &Program,
    name: u32,
    value: &Value,
    line: &mut Line,
) -> Result<(), NoMemory>
    requires ready { C.ready cells.old }
    requires leads { C.leads cells.old ≡ true }
    requires ends { (a : Account) × C.noted cells.old a × ComesToEnd a (plain value.now) }
    ensures lines { (a : Account) → C.noted cells.old a → OnOk result (IsMore (LineIn a (text_of (slice_get (seen program.now).names name)) (plain value.now)) line.old line.new) }
    ensures noted { (a : Account) → C.noted cells.old a → C.noted cells.new a }
    ensures held { (c : ℕ) → C.held cells.new c ≡ C.held cells.old c }
    ensures same { C.same cells.old cells.new }
{
    if !has_line(value) {
        return Ok(());
    }
    let front = front(cells, value)?;
    append_front(name_of(program, name), front, line)
}

/// The text of a name.
fn name_of(program: &Program, name: u32) -> &[u8]
    ensures { result.now ≡ text_of (slice_get (seen program.now).names name) }
{
    match program.name_text(name) {
        Some(text) => text,
        None => &[],
    }
}

/// The line of a name with a front.
fn append_front(name: &[u8], front: Front, line: &mut Line) -> Result<(), NoMemory>
    ensures { OnOk result (line.new ≡ line.old ++ front_line name.now front.count front.ended) }
{
    line.append(name)?;
    line.append(b" ")?;
    append_number(front.count, line)?;
    if front.ended {
        line.append(b" end")?;
    }
    end_line(line)
}

/// The line of the totals.
fn append_totals(totals: Totals, line: &mut Line) -> Result<(), NoMemory>
    ensures { OnOk result (line.new ≡ line.old ++ totals_line totals.made totals.realised totals.failed) }
{
    line.append(b"cells ")?;
    append_number(totals.made as u128, line)?;
    line.append(b" realised ")?;
    append_number(totals.realised as u128, line)?;
    line.append(b" failed ")?;
    append_number(totals.failed, line)?;
    end_line(line)
}

/// The end of a line.
fn end_line(line: &mut Line) -> Result<(), NoMemory>
    ensures { OnOk result (line.new ≡ line.old ++ newline) }
{
    line.push(b'\n')
}

/// A number in decimal.
fn append_number(number: u128, line: &mut Line) -> Result<(), NoMemory>
    ensures { OnOk result (line.new ≡ line.old ++ written number) }
{
    let mut digits = Buffer::new();
    line.append(digits.format(number).as_bytes())
}
