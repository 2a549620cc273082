//! A work is evaluated to its end.
ghost use Rattle.std.specs.Prelude.{◌≡◌, ◌+◌, ℕ};
ghost use Rattle.cell_book.specs.Glimpses.{glimpse, at_claim};
ghost use Rattle.cell_book.specs.Account.{Duty};
ghost use Rattle.lawful_works.specs.Basis.{Basis, Governs};
ghost use Rattle.lawful_works.specs.Calls.{Governed};
ghost use Rattle.lawful_works.specs.Evaluated.{IsBegun, IsOnly};
ghost use Rattle.lawful_works.specs.Named.{StaysGood};
ghost use Rattle.lawful_works.specs.Alone.{Becomes};
ghost use Rattle.eval_stack.specs.Stack.{basis_in, basis_of, stack_claims, lowest, StackOn};
ghost use Rattle.eval_stack.specs.Turned.{claims_left, Ends, TurnedOn};
ghost use Rattle.eval_stack.specs.Came.{stop_of, Comes, Concludes, Answered, EvaluationNotes, IsSomeGood, CameFrom};

use crate::beginning::begun_over;
use crate::looping::turns;
use crate::losing::{lose_all, lose_stack};
use crate::state::{Setting, Stack, Turned};
use cell_book::{Cells, PlainCells, Work};
use clj_script::Program;
use eval_frames::Rules;
use eval_works::Halt;
use lawful_works::{Stop, lose};
use seq_values::Value;
use seq_vector::Share;
use std::alloc::Global;

/// How an evaluation stops that goes on no more.
pub(crate) fn stop_for(why: Halt) -> Stop
    ensures { result ≡ stop_of why }
{
    match why {
        Halt::Spent => Stop::Spent,
        Halt::GaveUp => Stop::GaveUp,
        Halt::Memory => Stop::Memory,
    }
}

/// What the works came to. Those that are open are given up.
pub(crate) fn concluded<C: Cells, R: Rules>(
    setting: &Setting,
    cells: &mut C,
    turned: Turned<R>,
) -> Result<Value, Stop>
    requires ready { C.ready cells.old }
    requires law { Governed (C.alone cells.old) (C.law cells.old) (C.noted cells.old) }
    requires stands { TurnedOn R.running R.table setting.now (C.seen cells.old) (C.held cells.old) turned }
    ensures comes { Comes turned result }
    ensures ends { (w : Duty) → Ends (C.seen cells.old) w turned → Answered (C.seen cells.new) w result }
    ensures held { (c : ℕ) → C.held cells.new c + claims_left turned c ≡ C.held cells.old c }
    ensures law { (y : Basis) → Governs (C.alone cells.old) (C.law cells.old) (C.noted cells.old) y → Governs (C.alone cells.new) (C.law cells.new) (C.noted cells.new) y }
    ensures names { (y : Basis) → StaysGood (C.alone cells.old) (C.law cells.old) (C.noted cells.old) (C.alone cells.new) (C.law cells.new) (C.noted cells.new) y }
    ensures quiet { Becomes (C.alone cells.old) (C.noted cells.old) (C.noted cells.new) (Concludes turned) }
    ensures same { C.same cells.old cells.new }
{
    match turned {
        Turned::On(stack) => {
            lose_stack(setting, cells, stack);
            Err(Stop::Memory)
        }
        Turned::Waits {
            stack,
            cell: _,
            claim: _,
        } => {
            lose_stack(setting, cells, stack);
            Err(Stop::Memory)
        }
        Turned::Over(Ok(value)) => Ok(value),
        Turned::Over(Err(why)) => Err(Stop::Thrown(why)),
        Turned::Halts { below, work, why } => {
            lose_all(cells, below, work);
            Err(stop_for(why))
        }
    }
}

/// A stack is evaluated to its end.
fn evaluated<C: Cells, R: Rules>(
    alloc: Global,
    setting: &Setting,
    cells: &mut C,
    stack: Stack<R>,
) -> Result<Value, Stop>
    requires ready { C.ready cells.old }
    requires law { Governs (C.alone cells.old) (C.law cells.old) (C.noted cells.old) (basis_of R.table setting.now) }
    requires stack { StackOn R.running R.table setting.now (C.seen cells.old) (C.held cells.old) stack }
    ensures answer { Answered (C.seen cells.new) (lowest stack.below.items stack.top.work) result }
    ensures held { (c : ℕ) → C.held cells.new c + stack_claims stack c ≡ C.held cells.old c }
    ensures law { Governs (C.alone cells.new) (C.law cells.new) (C.noted cells.new) (basis_of R.table setting.now) }
    ensures names { StaysGood (C.alone cells.old) (C.law cells.old) (C.noted cells.old) (C.alone cells.new) (C.law cells.new) (C.noted cells.new) (basis_of R.table setting.now) }
    ensures quiet { Becomes (C.alone cells.old) (C.noted cells.old) (C.noted cells.new) (EvaluationNotes result) }
    ensures same { C.same cells.old cells.new }
{
    let turned = turns(alloc, setting, cells, stack);
    concluded(setting, cells, turned)
}

/// A work that was just opened, and that is the only one, is evaluated to its end.
fn forced<C: Cells, R: Rules>(
    alloc: Global,
    setting: &Setting,
    cells: &mut C,
    work: Work,
) -> Result<Value, Stop>
    requires ready { C.ready cells.old }
    requires law { Governs (C.alone cells.old) (C.law cells.old) (C.noted cells.old) (basis_of R.table setting.now) }
    requires begun { IsBegun (basis_of R.table setting.now) (C.seen cells.old) work }
    requires only { (c : ℕ) → C.held cells.old c ≡ at_claim work.claim c }
    ensures answer { Answered (C.seen cells.new) work result }
    ensures held { (c : ℕ) → C.held cells.new c ≡ 0 }
    ensures names { StaysGood (C.alone cells.old) (C.law cells.old) (C.noted cells.old) (C.alone cells.new) (C.law cells.new) (C.noted cells.new) (basis_of R.table setting.now) }
    ensures quiet { Becomes (C.alone cells.old) (C.noted cells.old) (C.noted cells.new) (EvaluationNotes result) }
    ensures same { C.same cells.old cells.new }
{
    match begun_over::<R>(alloc, setting, Vec::new(alloc), work) {
        Turned::On(stack) => evaluated(alloc, setting, cells, stack),
        other => concluded(setting, cells, other),
    }
}

/// Evaluates a work that was just opened, with all that it asks for, until its claim and those that it opened have ended. No other claim is open
/// then. The answer is what the work ended with, or why there is neither a value nor an error; all that is open is given up then.
pub fn force<R: Rules>(
    alloc: Global,
    program: &Program,
    processors: u32,
    limit: u64,
    cells: &mut PlainCells<'_>,
    work: Work,
) -> Result<Value, Stop>
    requires good { IsSomeGood (basis_in R.table program.now processors limit) cells.old.book.now }
    requires begun { IsBegun (basis_in R.table program.now processors limit) (glimpse cells.old.book.now) work }
    requires only { IsOnly cells.old.book.now work }
    ensures came { CameFrom (basis_in R.table program.now processors limit) cells.old.book.now cells.new.book.now work result }
    ensures same { cells.new.book.ghost_name ≡ cells.old.book.ghost_name }
{
    match program.share() {
        Ok(program) => {
            let setting = Setting {
                program,
                processors,
                limit,
            };
            forced::<PlainCells<'_>, R>(alloc, &setting, cells, work)
        }
        Err(_) => {
            lose(cells, work);
            Err(Stop::Memory)
        }
    }
}
