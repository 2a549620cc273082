//! The top work goes on, or makes a part.
ghost use Rattle.std.specs.Prelude.{◌≡◌, ◌+◌, ℕ};
ghost use Rattle.cell_book.specs.Account.{Account, Duty};
ghost use Rattle.cell_book.specs.Glimpses.{Glimpse};
ghost use Rattle.eval_frames.specs.Frames.{ground, makes_plan};
ghost use Rattle.eval_works.specs.Standing.{RunnerOn, basis};
ghost use Rattle.lawful_works.specs.Basis.{Governs, RunsTo};
ghost use Rattle.lawful_works.specs.Named.{StaysGood};
ghost use Rattle.lawful_works.specs.Alone.{Becomes};
ghost use Rattle.eval_stack.specs.Stack.{basis_of, IsCode, all_claims, lowest, StandsOver};
ghost use Rattle.eval_stack.specs.Turned.{claims_left, StaysLowest, Ends, TurnNotes, TurnedOn};

use crate::state::{Setting, Stack, Top, Turned, Waiting};
use cell_book::{Cells, Work};
use eval_frames::{Code, Maker, ProperTerm, Rest, Rules, Runner, run};
use eval_works::{Halt, make_part};
use seq_values::Kind;
use std::alloc::Global;

/// The run of the top work goes on, up to what it comes to next.
pub(crate) fn went<R: Rules>(
    alloc: Global,
    setting: &Setting,
    below: Vec<Waiting<R>>,
    work: Work,
    code: Code,
    runner: Runner<R>,
) -> Turned<R>
    ensures stands { (g : Glimpse) (mine : ℕ → ℕ) → StandsOver R.running R.table setting.now g mine below.items work → IsCode setting.now code work → RunnerOn (ground R.running R.table code) setting.now.limit g work runner → TurnedOn R.running R.table setting.now g mine result }
    ensures left { (c : ℕ) → claims_left result c ≡ all_claims below.items work c }
    ensures lowest { StaysLowest (lowest below.items work) result }
    ensures notes { (a : Account) → TurnNotes result a a }
    ensures ends { (g : Glimpse) (w : Duty) → Ends g w result }
{
    match run(alloc, &code, runner) {
        Ok(event) => Turned::On(Stack {
            below,
            top: Top { work, code, event },
        }),
        Err(_) => Turned::Halts {
            below,
            work,
            why: Halt::Memory,
        },
    }
}

/// The part that the run of the top work makes next is made.
pub(crate) fn makes<C: Cells, R: Rules>(
    alloc: Global,
    setting: &Setting,
    cells: &mut C,
    below: Vec<Waiting<R>>,
    work: Work,
    code: Code,
    kind: Kind,
    term: ProperTerm,
    maker: Maker<R>,
    rest: Rest<R>,
) -> Turned<R>
    requires ready { C.ready cells.old }
    requires law { Governs (C.alone cells.old) (C.law cells.old) (C.noted cells.old) (basis_of R.table setting.now) }
    requires over { StandsOver R.running R.table setting.now (C.seen cells.old) (C.held cells.old) below.items work }
    requires code { IsCode setting.now code work }
    requires run { RunsTo (basis (ground R.running R.table code) setting.now.limit) (C.seen cells.old) work rest.left (makes_plan (ground R.running R.table code) kind term maker rest) }
    ensures stands { TurnedOn R.running R.table setting.now (C.seen cells.new) (C.held cells.new) result }
    ensures ends { Ends (C.seen cells.new) (lowest below.items work) result }
    ensures lowest { StaysLowest (lowest below.items work) result }
    ensures held { (c : ℕ) → C.held cells.new c + all_claims below.items work c ≡ C.held cells.old c + claims_left result c }
    ensures law { Governs (C.alone cells.new) (C.law cells.new) (C.noted cells.new) (basis_of R.table setting.now) }
    ensures names { StaysGood (C.alone cells.old) (C.law cells.old) (C.noted cells.old) (C.alone cells.new) (C.law cells.new) (C.noted cells.new) (basis_of R.table setting.now) }
    ensures quiet { Becomes (C.alone cells.old) (C.noted cells.old) (C.noted cells.new) (TurnNotes result) }
    ensures same { C.same cells.old cells.new }
{
    match make_part(
        alloc,
        &code,
        setting.limit,
        cells,
        &work,
        kind,
        term,
        maker,
        rest,
    ) {
        Ok(event) => Turned::On(Stack {
            below,
            top: Top { work, code, event },
        }),
        Err(why) => Turned::Halts { below, work, why },
    }
}
