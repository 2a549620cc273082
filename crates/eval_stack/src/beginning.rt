//! How a work begins above others.
ghost use Rattle.std.specs.Prelude.{◌≡◌, ℕ};
ghost use Rattle.clj_script.specs.Seen.{seen};
ghost use Rattle.cell_book.specs.Account.{Account, Duty};
ghost use Rattle.cell_book.specs.Glimpses.{Glimpse};
ghost use Rattle.lawful_works.specs.Evaluated.{IsBegun};
ghost use Rattle.eval_works.specs.Begins.{IsNewWork};
ghost use Rattle.eval_stack.specs.Stack.{basis_of, all_claims, lowest, StandsOver};
ghost use Rattle.eval_stack.specs.Turned.{claims_left, StaysLowest, Ends, TurnNotes, TurnedOn};

use crate::state::{Setting, Stack, Top, Turned, Waiting};
use cell_book::Work;
use eval_frames::Rules;
use eval_works::{Begun, Halt, begin_work};
use std::alloc::Global;

/// The work is the top one, at the start of its run.
pub(crate) fn begun_over<R: Rules>(
    alloc: Global,
    setting: &Setting,
    below: Vec<Waiting<R>>,
    work: Work,
) -> Turned<R>
    requires new { IsNewWork (seen setting.now.program).tops work }
    ensures stands { (g : Glimpse) (mine : ℕ → ℕ) → StandsOver R.running R.table setting.now g mine below.items work → IsBegun (basis_of R.table setting.now) g work → TurnedOn R.running R.table setting.now g mine result }
    ensures left { (c : ℕ) → claims_left result c ≡ all_claims below.items work c }
    ensures lowest { StaysLowest (lowest below.items work) result }
    ensures notes { (a : Account) → TurnNotes result a a }
    ensures ends { (g : Glimpse) (w : Duty) → Ends g w result }
{
    match begin_work(
        alloc,
        &setting.program,
        setting.processors,
        setting.limit,
        &work,
    ) {
        Ok(begun) => {
            let Begun { code, event } = begun;
            Turned::On(Stack {
                below,
                top: Top { work, code, event },
            })
        }
        Err(_) => Turned::Halts {
            below,
            work,
            why: Halt::Memory,
        },
    }
}
