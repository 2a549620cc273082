//! Works are given up.
ghost use Rattle.std.specs.Prelude.{◌≡◌, ◌+◌, ◌<◌, ◌≤◌, ℕ};
ghost use Rattle.lawful_works.specs.Basis.{Basis, Governs};
ghost use Rattle.lawful_works.specs.Calls.{Governed};
ghost use Rattle.lawful_works.specs.Named.{StaysGood};
ghost use Rattle.lawful_works.specs.Alone.{Becomes, Grows};
ghost use Rattle.eval_stack.specs.Stack.{claims, all_claims, stack_claims, AreOpen, IsOpenOver, StackOn};

use crate::state::{Setting, Stack, Top, Waiting};
use cell_book::{Cells, Work};
use eval_frames::Rules;
use lawful_works::lose;

/// The work of one that waits.
fn waiting_work<R: Rules>(waiting: Waiting<R>) -> Work
    ensures { result ≡ waiting.work }
{
    let Waiting {
        work,
        code: _,
        asker: _,
    } = waiting;
    work
}

/// The top work.
fn top_work<R: Rules>(top: Top<R>) -> Work
    ensures { result ≡ top.work }
{
    let Top {
        work,
        code: _,
        event: _,
    } = top;
    work
}

/// Gives up the works that wait. It takes no memory.
fn lose_below<C: Cells, R: Rules>(cells: &mut C, below: Vec<Waiting<R>>)
    requires ready { C.ready cells.old }
    requires law { Governed (C.alone cells.old) (C.law cells.old) (C.noted cells.old) }
    requires open { AreOpen (C.seen cells.old) below.items }
    requires own { (c : ℕ) → claims below.items c ≤ C.held cells.old c }
    requires once { (c : ℕ) → claims below.items c ≤ 1 }
    ensures held { (c : ℕ) → C.held cells.new c + claims below.items c ≡ C.held cells.old c }
    ensures law { (y : Basis) → Governs (C.alone cells.old) (C.law cells.old) (C.noted cells.old) y → Governs (C.alone cells.new) (C.law cells.new) (C.noted cells.new) y }
    ensures names { (y : Basis) → StaysGood (C.alone cells.old) (C.law cells.old) (C.noted cells.old) (C.alone cells.new) (C.law cells.new) (C.noted cells.new) y }
    ensures quiet { Becomes (C.alone cells.old) (C.noted cells.old) (C.noted cells.new) Grows }
    ensures same { C.same cells.old cells.new }
{
    let mut below = below;
    loop {
        match below.pop() {
            Some(waiting) => lose(cells, waiting_work(waiting)),
            None => {
                below.destroy_empty();
                return;
            }
        }
    }
}

/// Gives up all works, the top one first. It takes no memory.
pub(crate) fn lose_all<C: Cells, R: Rules>(cells: &mut C, below: Vec<Waiting<R>>, work: Work)
    requires ready { C.ready cells.old }
    requires law { Governed (C.alone cells.old) (C.law cells.old) (C.noted cells.old) }
    requires open { IsOpenOver (C.seen cells.old) (C.held cells.old) below.items work }
    ensures held { (c : ℕ) → C.held cells.new c + all_claims below.items work c ≡ C.held cells.old c }
    ensures law { (y : Basis) → Governs (C.alone cells.old) (C.law cells.old) (C.noted cells.old) y → Governs (C.alone cells.new) (C.law cells.new) (C.noted cells.new) y }
    ensures names { (y : Basis) → StaysGood (C.alone cells.old) (C.law cells.old) (C.noted cells.old) (C.alone cells.new) (C.law cells.new) (C.noted cells.new) y }
    ensures quiet { Becomes (C.alone cells.old) (C.noted cells.old) (C.noted cells.new) Grows }
    ensures same { C.same cells.old cells.new }
{
    lose(cells, work);
    lose_below(cells, below);
}

/// Gives up all works of a stack. It takes no memory.
pub(crate) fn lose_stack<C: Cells, R: Rules>(setting: &Setting, cells: &mut C, stack: Stack<R>)
    requires ready { C.ready cells.old }
    requires law { Governed (C.alone cells.old) (C.law cells.old) (C.noted cells.old) }
    requires stack { StackOn R.running R.table setting.now (C.seen cells.old) (C.held cells.old) stack }
    ensures held { (c : ℕ) → C.held cells.new c + stack_claims stack c ≡ C.held cells.old c }
    ensures law { (y : Basis) → Governs (C.alone cells.old) (C.law cells.old) (C.noted cells.old) y → Governs (C.alone cells.new) (C.law cells.new) (C.noted cells.new) y }
    ensures names { (y : Basis) → StaysGood (C.alone cells.old) (C.law cells.old) (C.noted cells.old) (C.alone cells.new) (C.law cells.new) (C.noted cells.new) y }
    ensures quiet { Becomes (C.alone cells.old) (C.noted cells.old) (C.noted cells.new) Grows }
    ensures same { C.same cells.old cells.new }
{
    let Stack { below, top } = stack;
    let work = top_work(top);
    lose_all(cells, below, work);
}
