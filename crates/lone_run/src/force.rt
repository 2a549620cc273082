//! A form is evaluated, and then every open future.
ghost use Rattle.std.specs.Prelude.{◌≡◌, ◌+◌, ◌<◌, ◌≤◌, ℕ, suc, true, false, length, slice_get, Some, IfOk, OnOk};
ghost use Rattle.cell_book.specs.Glimpses.{glimpse};
ghost use Rattle.cell_book.specs.Steps.{IsOpenFuture, Claims};
ghost use Rattle.clj_script.specs.Seen.{seen};
ghost use Rattle.seq_lawful.specs.Runs.{MayBegin};
ghost use Rattle.seq_table.specs.Table.{language};
ghost use Rattle.lawful_works.specs.Basis.{IsGood};
ghost use Rattle.lawful_works.specs.Evaluated.{Came, IsBegun, IsOnly};
ghost use Rattle.lone_run.specs.Running.{basis_of, names_of};
ghost use Rattle.lone_run.specs.Stages.{as_came, IsCalm, IsOver, Evaluated, Forced, Settled, WentOn};

use crate::evaluator::Evaluator;
use crate::given::{Given, Halt};
use cell_book::{Book, ClaimRefusal, PlainCells, Work};
use clj_script::Program;
use lawful_works::Stop;
use seq_base::Limits;
use seq_values::CellId;
use std::alloc::Global;

/// Lends the book to the evaluator for a work that was just opened.
fn evaluate<E: Evaluator>(
    alloc: Global,
    program: &Program,
    limits: Limits,
    book: &mut Book,
    work: Work,
) -> Result<Given, Halt>
    requires good { IsGood (names_of limits) (basis_of (seen program.now) limits) book.old }
    requires kept { book.old.gave_up ≡ false }
    requires begun { IsBegun (basis_of (seen program.now) limits) (glimpse book.old) work }
    requires only { IsOnly book.old work }
    ensures { Came (names_of limits) (basis_of (seen program.now) limits) book.old book.new work (as_came result) }
{
    let mut cells = PlainCells::over(book);
    match E::evaluate(alloc, program, limits, &mut cells, work) {
        Ok(value) => Ok(Given::Gave(value)),
        Err(Stop::Thrown(why)) => Ok(Given::Threw(why)),
        Err(Stop::Spent) => Err(Halt::Spent),
        Err(Stop::Memory) => Err(Halt::Memory),
        Err(Stop::GaveUp) => unreachable!(),
    }
}

/// Begins the form that has so many before it, and evaluates it.
fn evaluate_form<E: Evaluator>(
    alloc: Global,
    program: &Program,
    limits: Limits,
    before: u32,
    book: &mut Book,
) -> Result<Given, Halt>
    requires calm { IsCalm (seen program.now) limits book.old }
    requires next { MayBegin (language limits.processors) (seen program.now) limits.steps (glimpse book.old) (before + 1) }
    requires so_many { length book.old.forms ≡ before }
    requires small { before < 4294967295 }
    ensures ok { IfOk result (λ given. Evaluated (seen program.now) limits book.old before book.new given) }
    ensures spent { result ≡ Err Halt.Spent → IsOver (seen program.now) limits book.new (suc before) }
{
    match book.begin_form(before + 1) {
        Ok(work) => evaluate::<E>(alloc, program, limits, book, work),
        Err(_) => Err(Halt::Memory),
    }
}

/// Opens a claim on an open future.
fn claim_future(book: &mut Book, id: CellId) -> Result<Work, Halt>
    requires future { IsOpenFuture book.old id }
    requires kept { book.old.gave_up ≡ false }
    ensures ok { IfOk result (λ work. Claims book.old id None (Ok work) book.new) }
    ensures memory { result ≡ Err Halt.Spent → ⊥ }
{
    match book.claim(id, None) {
        Ok(work) => Ok(work),
        Err(ClaimRefusal::Memory) => Err(Halt::Memory),
        Err(ClaimRefusal::Seen(_)) => unreachable!(),
        Err(ClaimRefusal::GaveUp) => unreachable!(),
    }
}

/// Evaluates an open future. The value or the error stands in the book.
fn evaluate_future<E: Evaluator>(
    alloc: Global,
    program: &Program,
    limits: Limits,
    book: &mut Book,
    id: CellId,
) -> Result<(), Halt>
    requires calm { IsCalm (seen program.now) limits book.old }
    requires future { IsOpenFuture book.old id }
    ensures ok { OnOk result (WentOn (seen program.now) limits book.old book.new) }
    ensures spent { result ≡ Err Halt.Spent → IsOver (seen program.now) limits book.new (length book.old.forms) }
{
    let work = claim_future(book, id)?;
    evaluate::<E>(alloc, program, limits, book, work)?;
    Ok(())
}

/// Evaluates every open future, the one with the lowest number first, again and again until none is open. Each turn ends one future, and a book has no more parts than the limit, so as many turns as that are enough; this isn't shown here, and whoever would need one more is told that memory ran out.
fn settle<E: Evaluator>(
    alloc: Global,
    program: &Program,
    limits: Limits,
    book: &mut Book,
) -> Result<(), Halt>
    requires calm { IsCalm (seen program.now) limits book.old }
    ensures ok { OnOk result (Settled (seen program.now) limits book.old book.new) }
    ensures spent { result ≡ Err Halt.Spent → IsOver (seen program.now) limits book.new (length book.old.forms) }
{
    for _ in 0..limits.cells as u64 + 1 {
        match book.open_future() {
            None => return Ok(()),
            Some(id) => evaluate_future::<E>(alloc, program, limits, book, id)?,
        }
    }
    Err(Halt::Memory)
}

/// Evaluates the form that has so many before it, and then every open future.
pub(crate) fn force_form<E: Evaluator>(
    alloc: Global,
    program: &Program,
    limits: Limits,
    before: u32,
    book: &mut Book,
) -> Result<Given, Halt>
    requires calm { IsCalm (seen program.now) limits book.old }
    requires next { MayBegin (language limits.processors) (seen program.now) limits.steps (glimpse book.old) (before + 1) }
    requires so_many { length book.old.forms ≡ before }
    requires small { before < 4294967295 }
    ensures ok { IfOk result (λ given. Forced (seen program.now) limits book.old before book.new given) }
    ensures spent { result ≡ Err Halt.Spent → IsOver (seen program.now) limits book.new (suc before) }
{
    let given = evaluate_form::<E>(alloc, program, limits, before, book)?;
    settle::<E>(alloc, program, limits, book)?;
    Ok(given)
}
