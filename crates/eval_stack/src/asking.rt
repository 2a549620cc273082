//! The top work asks a part.
ghost use Rattle.std.specs.Prelude.{◌≡◌, ◌+◌, ◌<◌, ◌++◌, ◌∷◌, ℕ, []};
ghost use Rattle.eval_works.specs.Begins.{IsNewWork};
ghost use Rattle.lawful_works.specs.Evaluated.{IsBegun};
ghost use Rattle.std.specs.Vec.{vec_len, vec_capacity};
ghost use Rattle.clj_script.specs.Seen.{seen};
ghost use Rattle.cell_book.specs.Account.{Account, Duty};
ghost use Rattle.cell_book.specs.Glimpses.{Glimpse};
ghost use Rattle.eval_frames.specs.Frames.{ground};
ghost use Rattle.eval_works.specs.Standing.{AskerOn};
ghost use Rattle.lawful_works.specs.Basis.{Governs};
ghost use Rattle.lawful_works.specs.Named.{StaysGood};
ghost use Rattle.lawful_works.specs.Alone.{Becomes};
ghost use Rattle.eval_stack.specs.Stack.{basis_of, IsCode, all_claims, lowest, StandsOver};
ghost use Rattle.eval_stack.specs.Turned.{claims_left, StaysLowest, Ends, TurnNotes, TurnedOn};

use crate::beginning::begun_over;
use crate::state::{Setting, Stack, Top, Turned, Waiting};
use cell_book::{Cells, Work};
use eval_frames::{Asker, Code, Event, Rules};
use eval_works::{Claimed, Halt, claim};
use std::alloc::Global;

/// There is no room for one more work that waits.
fn no_room<R: Rules>(below: Vec<Waiting<R>>, work: Work, asker: Asker<R>) -> Turned<R>
    ensures { result ≡ Turned.Halts below work Halt.Memory }
{
    Turned::Halts {
        below,
        work,
        why: Halt::Memory,
    }
}

/// The work that asks waits, and the one that was opened for it begins.
fn opened_over<R: Rules>(
    alloc: Global,
    setting: &Setting,
    below: Vec<Waiting<R>>,
    waiting: Waiting<R>,
    opened: Work,
) -> Turned<R>
    requires room { vec_len below < vec_capacity below }
    requires new { IsNewWork (seen setting.now.program).tops opened }
    ensures stands { (g : Glimpse) (mine : ℕ → ℕ) → StandsOver R.running R.table setting.now g mine (below.items ++ waiting ∷ []) opened → IsBegun (basis_of R.table setting.now) g opened → TurnedOn R.running R.table setting.now g mine result }
    ensures left { (c : ℕ) → claims_left result c ≡ all_claims (below.items ++ waiting ∷ []) opened c }
    ensures lowest { StaysLowest (lowest (below.items ++ waiting ∷ []) opened) result }
    ensures notes { (a : Account) → TurnNotes result a a }
    ensures ends { (g : Glimpse) (w : Duty) → Ends g w result }
{
    let mut below = below;
    below.push_reserved(waiting);
    begun_over(alloc, setting, below, opened)
}

/// The part is claimed, where there is room for one more work that waits.
fn claims_part<C: Cells, R: Rules>(
    alloc: Global,
    setting: &Setting,
    cells: &mut C,
    below: Vec<Waiting<R>>,
    work: Work,
    code: Code,
    asker: Asker<R>,
) -> Turned<R>
    requires ready { C.ready cells.old }
    requires law { Governs (C.alone cells.old) (C.law cells.old) (C.noted cells.old) (basis_of R.table setting.now) }
    requires over { StandsOver R.running R.table setting.now (C.seen cells.old) (C.held cells.old) below.items work }
    requires code { IsCode setting.now code work }
    requires run { AskerOn (ground R.running R.table code) setting.now.limit (C.seen cells.old) work asker }
    requires room { vec_len below < vec_capacity below }
    ensures stands { TurnedOn R.running R.table setting.now (C.seen cells.new) (C.held cells.new) result }
    ensures ends { Ends (C.seen cells.new) (lowest below.items work) result }
    ensures lowest { StaysLowest (lowest below.items work) result }
    ensures held { (c : ℕ) → C.held cells.new c + all_claims below.items work c ≡ C.held cells.old c + claims_left result c }
    ensures law { Governs (C.alone cells.new) (C.law cells.new) (C.noted cells.new) (basis_of R.table setting.now) }
    ensures names { StaysGood (C.alone cells.old) (C.law cells.old) (C.noted cells.old) (C.alone cells.new) (C.law cells.new) (C.noted cells.new) (basis_of R.table setting.now) }
    ensures quiet { Becomes (C.alone cells.old) (C.noted cells.old) (C.noted cells.new) (TurnNotes result) }
    ensures same { C.same cells.old cells.new }
{
    match claim(alloc, &code, setting.limit, cells, &work, asker) {
        Ok(Claimed::Opened(asker, opened)) => {
            let waiting = Waiting { work, code, asker };
            opened_over(alloc, setting, below, waiting, opened)
        }
        Ok(Claimed::Comes(event)) => Turned::On(Stack {
            below,
            top: Top { work, code, event },
        }),
        Ok(Claimed::Waits(asker, claim)) => {
            let cell = asker.cell;
            let event = Event::Asks(asker);
            Turned::Waits {
                stack: Stack {
                    below,
                    top: Top { work, code, event },
                },
                cell,
                claim,
            }
        }
        Err(why) => Turned::Halts { below, work, why },
    }
}

/// The part that the top work asks for is claimed. A work that is opened for it becomes the top one; with the value or the error of a part that
/// has one the top work goes on.
pub(crate) fn asks<C: Cells, R: Rules>(
    alloc: Global,
    setting: &Setting,
    cells: &mut C,
    below: Vec<Waiting<R>>,
    work: Work,
    code: Code,
    asker: Asker<R>,
) -> Turned<R>
    requires ready { C.ready cells.old }
    requires law { Governs (C.alone cells.old) (C.law cells.old) (C.noted cells.old) (basis_of R.table setting.now) }
    requires over { StandsOver R.running R.table setting.now (C.seen cells.old) (C.held cells.old) below.items work }
    requires code { IsCode setting.now code work }
    requires run { AskerOn (ground R.running R.table code) setting.now.limit (C.seen cells.old) work asker }
    ensures stands { TurnedOn R.running R.table setting.now (C.seen cells.new) (C.held cells.new) result }
    ensures ends { Ends (C.seen cells.new) (lowest below.items work) result }
    ensures lowest { StaysLowest (lowest below.items work) result }
    ensures held { (c : ℕ) → C.held cells.new c + all_claims below.items work c ≡ C.held cells.old c + claims_left result c }
    ensures law { Governs (C.alone cells.new) (C.law cells.new) (C.noted cells.new) (basis_of R.table setting.now) }
    ensures names { StaysGood (C.alone cells.old) (C.law cells.old) (C.noted cells.old) (C.alone cells.new) (C.law cells.new) (C.noted cells.new) (basis_of R.table setting.now) }
    ensures quiet { Becomes (C.alone cells.old) (C.noted cells.old) (C.noted cells.new) (TurnNotes result) }
    ensures same { C.same cells.old cells.new }
{
    let mut below = below;
    match below.reserve(1) {
        Ok(()) => claims_part(alloc, setting, cells, below, work, code, asker),
        Err(_) => no_room(below, work, asker),
    }
}
