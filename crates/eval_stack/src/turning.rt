//! A turn of a stack.
ghost use Rattle.std.specs.Prelude.{◌≡◌, ◌+◌, ℕ};
ghost use Rattle.lawful_works.specs.Basis.{Governs};
ghost use Rattle.lawful_works.specs.Named.{StaysGood};
ghost use Rattle.lawful_works.specs.Alone.{Becomes};
ghost use Rattle.eval_stack.specs.Stack.{basis_of, all_claims, lowest, StackOn};
ghost use Rattle.eval_stack.specs.Turned.{claims_left, StaysLowest, Ends, TurnNotes, TurnedOn};

use crate::asking::asks;
use crate::ending::{gives, throws};
use crate::state::{Setting, Stack, Top, Turned};
use crate::stepping::{makes, went};
use cell_book::Cells;
use eval_frames::{Event, Rules};
use std::alloc::Global;

/// What the top work came to is done: its run goes on, it makes or asks a part, or it ends and the one below it goes on.
pub(crate) fn turn<C: Cells, R: Rules>(
    alloc: Global,
    setting: &Setting,
    cells: &mut C,
    stack: Stack<R>,
) -> Turned<R>
    requires ready { C.ready cells.old }
    requires law { Governs (C.alone cells.old) (C.law cells.old) (C.noted cells.old) (basis_of R.table setting.now) }
    requires stack { StackOn R.running R.table setting.now (C.seen cells.old) (C.held cells.old) stack }
    ensures stands { TurnedOn R.running R.table setting.now (C.seen cells.new) (C.held cells.new) result }
    ensures ends { Ends (C.seen cells.new) (lowest stack.below.items stack.top.work) result }
    ensures lowest { StaysLowest (lowest stack.below.items stack.top.work) result }
    ensures held { (c : ℕ) → C.held cells.new c + all_claims stack.below.items stack.top.work c ≡ C.held cells.old c + claims_left result c }
    ensures law { Governs (C.alone cells.new) (C.law cells.new) (C.noted cells.new) (basis_of R.table setting.now) }
    ensures names { StaysGood (C.alone cells.old) (C.law cells.old) (C.noted cells.old) (C.alone cells.new) (C.law cells.new) (C.noted cells.new) (basis_of R.table setting.now) }
    ensures quiet { Becomes (C.alone cells.old) (C.noted cells.old) (C.noted cells.new) (TurnNotes result) }
    ensures same { C.same cells.old cells.new }
{
    let Stack { below, top } = stack;
    let Top { work, code, event } = top;
    match event {
        Event::Went(runner) => went(alloc, setting, below, work, code, runner),
        Event::Asks(asker) => asks(alloc, setting, cells, below, work, code, asker),
        Event::Makes {
            kind,
            term,
            maker,
            rest,
        } => makes(
            alloc, setting, cells, below, work, code, kind, term, maker, rest,
        ),
        Event::Gives { value, left } => gives(setting, cells, below, work, code, value, left),
        Event::Throws { why, left } => throws(setting, cells, below, work, code, why, left),
    }
}
