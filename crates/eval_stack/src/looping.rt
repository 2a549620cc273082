//! Turns, one after another.
ghost use Rattle.std.specs.Prelude.{◌≡◌, ◌+◌, ℕ};
ghost use Rattle.lawful_works.specs.Basis.{Governs};
ghost use Rattle.lawful_works.specs.Named.{StaysGood};
ghost use Rattle.lawful_works.specs.Alone.{Becomes};
ghost use Rattle.eval_stack.specs.Stack.{basis_of, all_claims, lowest, StackOn};
ghost use Rattle.eval_stack.specs.Turned.{claims_left, StaysLowest, Ends, TurnNotes, TurnedOn};

use crate::state::{Setting, Stack, Turned};
use crate::turning::turn;
use cell_book::Cells;
use eval_frames::Rules;
use std::alloc::Global;

/// Turns until the lowest work has ended, or no work goes on. There are at most 2^64 - 1 of them.
pub(crate) fn turns<C: Cells, R: Rules>(
    alloc: Global,
    setting: &Setting,
    cells: &mut C,
    stack: Stack<R>,
) -> Turned<R>
    requires ready { C.ready cells.old }
    requires law { Governs (C.alone cells.old) (C.law cells.old) (C.noted cells.old) (basis_of R.table setting.now) }
    requires stack { StackOn R.running R.table setting.now (C.seen cells.old) (C.held cells.old) stack }
    ensures stands { TurnedOn R.running R.table setting.now (C.seen cells.new) (C.held cells.new) result }
    ensures ends { Ends (C.seen cells.new) (lowest stack.below.items stack.top.work) result }
    ensures lowest { StaysLowest (lowest stack.below.items stack.top.work) result }
    ensures held { (c : ℕ) → C.held cells.new c + all_claims stack.below.items stack.top.work c ≡ C.held cells.old c + claims_left result c }
    ensures law { Governs (C.alone cells.new) (C.law cells.new) (C.noted cells.new) (basis_of R.table setting.now) }
    ensures names { StaysGood (C.alone cells.old) (C.law cells.old) (C.noted cells.old) (C.alone cells.new) (C.law cells.new) (C.noted cells.new) (basis_of R.table setting.now) }
    ensures quiet { Becomes (C.alone cells.old) (C.noted cells.old) (C.noted cells.new) (TurnNotes result) }
    ensures same { C.same cells.old cells.new }
{
    let mut stack = stack;
    for _turn in 0..u64::MAX {
        match turn(alloc, setting, cells, stack) {
            Turned::On(next) => stack = next,
            Turned::Waits {
                stack: waiting,
                cell,
                claim,
            } => {
                return Turned::Waits {
                    stack: waiting,
                    cell,
                    claim,
                };
            }
            Turned::Over(answer) => return Turned::Over(answer),
            Turned::Halts { below, work, why } => return Turned::Halts { below, work, why },
        }
    }
    Turned::On(stack)
}
