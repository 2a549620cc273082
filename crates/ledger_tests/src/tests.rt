ghost use Rattle.std.specs.Prelude.{◌≡◌, ◌<ℤ◌, ℕ, slice_get, Some, IfOk};
ghost use Rattle.cell_book.specs.Account.{new_book};
ghost use Rattle.seq_ledger.specs.Walks.{ComesToEnd};
ghost use Rattle.seq_values.specs.Model as M;
ghost use Rattle.seq_values.specs.Plain.{plain};
ghost use Rattle.seq_values.specs.declared.value.Value.{Value as Coded};
ghost use Rattle.seq_values.specs.declared.value.Value.TheVariants as V;
ghost use Rattle.seq_values.specs.declared.value.Node.TheVariants as N;

use crate::done_part;
use cell_book::{Book, PlainCells};
use clj_reader::read_forms;
use clj_script::{Program, compile};
use seq_ledger::{front, law_one_text, law_reads_alike, ledger_text};
use seq_values::{CellId, Line, Node, Value, before, integer, one_item};
use seq_vector::{NoMemory, PVec};
use std::alloc::Global;
use std::test::Fail;

fn full(_why: NoMemory) -> Fail {
    Fail::from("no memory")
}

fn new_book_of(alloc: Global) -> Result<Book, Fail>
    ensures { IfOk result (λ book. book ≡ new_book 9) }
{
    match Book::new(alloc, 9) {
        Ok(book) => Ok(book),
        Err(why) => Err(full(why)),
    }
}

/// The program of a script.
fn compiled(alloc: Global, script: &str) -> Result<Program, Fail> {
    let forms = match read_forms(alloc, script.as_bytes()) {
        Ok(forms) => forms,
        Err(_) => return Err(Fail::from("not read")),
    };
    match compile(alloc, &forms) {
        Ok(program) => Ok(program),
        Err(_) => Err(Fail::from("not compiled")),
    }
}

/// The ledger of a book, a script and the values of its `def` forms.
fn written(
    alloc: Global,
    book: &mut Book,
    script: &str,
    defined: &PVec<Value>,
) -> Result<Line, Fail>
    requires { (i : ℕ) (v : Coded) → slice_get defined.now i ≡ Some v → ComesToEnd book.old (plain v) }
{
    let program = compiled(alloc, script)?;
    let totals = book.totals();
    let mut cells = PlainCells::over(book);
    match ledger_text(alloc, &mut cells, &program, defined, totals) {
        Ok(line) => Ok(line),
        Err(why) => Err(full(why)),
    }
}

/// Whether this is the ledger of a script with one `def` form, whose value is this one.
#[tactic(auto, using(crate::proofs::Ending::one_defined))]
fn is_written(
    alloc: Global,
    book: &mut Book,
    script: &str,
    value: Value,
    text: &[u8],
) -> Result<bool, Fail>
    requires { ComesToEnd book.old (plain value) }
{
    let defined = one_item(alloc, value).map_err(full)?;
    let line = written(alloc, book, script, &defined)?;
    Ok(line.bytes() == text)
}

/// The integers from one up to another.
#[tactic(auto, using(crate::proofs::Ending::plain_range))]
fn range(from: i64, end: i64) -> Value
    ensures stands { plain result ≡ M.range from from end }
    ensures same { result ≡ V.Node (N.Range from from end) }
{
    Value::Node(Node::Range {
        from,
        at: from,
        end,
    })
}

/// The number 1 before the integers from one up to another.
fn one_before(alloc: Global, from: i64, end: i64) -> Result<Value, Fail>
    requires { from <ℤ end }
    ensures { IfOk result (λ v. (xs : M.Values ℕ) × (plain v ≡ M.cons xs (M.range from from end))) }
{
    match before(alloc, integer(1), range(from, end)) {
        Ok(value) => Ok(value),
        Err(why) => Err(full(why)),
    }
}

/// A part with a number.
#[tactic(auto, using(crate::proofs::Ending::plain_cell))]
fn part(number: u32) -> Result<Value, Fail>
    ensures { IfOk result (λ v. plain v ≡ M.cell number) }
{
    match CellId::of(number) {
        Some(id) => Ok(Value::Cell(id)),
        None => Err(Fail::from("no part")),
    }
}

#[test]
#[tactic(auto, using(crate::proofs::Ending::none_defined))]
fn nothing_is_defined(rt: HostRuntime) -> Result<(), Fail> {
    law_reads_alike();
    law_one_text();
    let mut book = new_book_of(rt.alloc())?;
    let line = written(rt.alloc(), &mut book, "(ledger)", &PVec::new())?;
    assert!(rt; line.bytes() == b"cells 0 realised 0 failed 0\n".as_slice());
    Ok(())
}

#[test]
#[tactic(auto, using(crate::proofs::Ending::nil_ends))]
fn the_front_of_nil(rt: HostRuntime) -> Result<(), Fail> {
    let mut book = new_book_of(rt.alloc())?;
    let mut cells = PlainCells::over(&mut book);
    let front = front(&mut cells, &Value::Nil).map_err(full)?;
    assert!(rt; front.count == 0 && front.ended);
    Ok(())
}

#[test]
#[tactic(auto, using(crate::proofs::Ending::nil_ends))]
fn nil_has_no_line(rt: HostRuntime) -> Result<(), Fail> {
    let mut book = new_book_of(rt.alloc())?;
    let text = b"cells 0 realised 0 failed 0\n".as_slice();
    let script = "(def n nil) (ledger)";
    assert!(rt; is_written(rt.alloc(), &mut book, script, Value::Nil, text)?);
    Ok(())
}

#[test]
#[tactic(auto, using(crate::proofs::Ending::range_ends))]
fn one_before_all_others(rt: HostRuntime) -> Result<(), Fail> {
    let mut book = new_book_of(rt.alloc())?;
    let text = b"a 18446744073709551616 end\ncells 0 realised 0 failed 0\n".as_slice();
    let script = "(defn f [x] x) (def a (map f (range 9))) (ledger)";
    let value = one_before(rt.alloc(), i64::MIN, i64::MAX)?;
    assert!(rt; is_written(rt.alloc(), &mut book, script, value, text)?);
    Ok(())
}

#[test]
#[tactic(auto, using(crate::proofs::Ending::unmade_ends))]
fn a_part_that_has_no_value(rt: HostRuntime) -> Result<(), Fail> {
    let mut book = new_book_of(rt.alloc())?;
    let text = b"xs 0\ncells 0 realised 0 failed 0\n".as_slice();
    let script = "(def xs (map inc (range 100))) (ledger)";
    let value = part(1)?;
    assert!(rt; is_written(rt.alloc(), &mut book, script, value, text)?);
    Ok(())
}

#[test]
#[tactic(auto, using(crate::proofs::Ending::done_ends))]
fn a_part_that_has_a_value(rt: HostRuntime) -> Result<(), Fail> {
    let mut book = new_book_of(rt.alloc())?;
    let text = b"xs 3 end\ncells 1 realised 1 failed 0\n".as_slice();
    let script = "(def xs (map dec (range 1 4))) (ledger)";
    let Some(id) = done_part(&mut book, range(0, 3)) else {
        return Err(Fail::from("no part"));
    };
    assert!(rt; is_written(rt.alloc(), &mut book, script, Value::Cell(id), text)?);
    Ok(())
}
