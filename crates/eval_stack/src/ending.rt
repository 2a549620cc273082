//! The top work ends.
ghost use Rattle.std.specs.Prelude.{◌≡◌, ◌+◌, ◌++◌, ◌∷◌, ℕ, []};
ghost use Rattle.std.specs.Vec.{vec_len};
ghost use Rattle.seq_values.specs.Plain.{plain};
ghost use Rattle.seq_plan.specs.Plan.{give, throw};
ghost use Rattle.cell_book.specs.Account.{Duty};
ghost use Rattle.cell_book.specs.Glimpses.{at_claim};
ghost use Rattle.eval_frames.specs.Frames.{ground};
ghost use Rattle.eval_works.specs.Standing.{basis};
ghost use Rattle.lawful_works.specs.Basis.{Governs, RunsTo};
ghost use Rattle.lawful_works.specs.Named.{StaysGood};
ghost use Rattle.lawful_works.specs.Alone.{Becomes};
ghost use Rattle.eval_stack.specs.Stack.{basis_of, IsCode, all_claims, lowest, StandsOver};
ghost use Rattle.eval_stack.specs.Turned.{claims_left, StaysLowest, Ends, TurnNotes, TurnedOn};

use crate::state::{Setting, Stack, Top, Turned, Waiting};
use cell_book::{Cells, Work};
use eval_frames::{Asker, Code, Event, Rules};
use eval_works::{Halt, end_throw, end_value};
use seq_base::Thrown;
use seq_turns::Proper;
use seq_vector::Share;

/// There is no memory for one more owner of the value.
fn unshared<R: Rules>(below: Vec<Waiting<R>>, work: Work, value: Proper) -> Turned<R>
    ensures { result ≡ Turned.Halts below work Halt.Memory }
{
    Turned::Halts {
        below,
        work,
        why: Halt::Memory,
    }
}

/// The own steps that are left to a work that asks.
fn steps_left<R: Rules>(asker: Asker<R>) -> u64
    ensures { result ≡ asker.rest.left }
{
    asker.rest.left
}

/// The lowest work ends with its value.
fn last_value<C: Cells, R: Rules>(
    setting: &Setting,
    cells: &mut C,
    below: Vec<Waiting<R>>,
    work: Work,
    code: Code,
    value: Proper,
    left: u64,
) -> Turned<R>
    requires ready { C.ready cells.old }
    requires law { Governs (C.alone cells.old) (C.law cells.old) (C.noted cells.old) (basis_of R.table setting.now) }
    requires over { StandsOver R.running R.table setting.now (C.seen cells.old) (C.held cells.old) below.items work }
    requires code { IsCode setting.now code work }
    requires run { RunsTo (basis (ground R.running R.table code) setting.now.limit) (C.seen cells.old) work left (give (plain value.value)) }
    requires empty { vec_len below ≡ 0 }
    requires none { below.items ≡ [] }
    ensures stands { TurnedOn R.running R.table setting.now (C.seen cells.new) (C.held cells.new) result }
    ensures ends { Ends (C.seen cells.new) work result }
    ensures lowest { (w : Duty) → StaysLowest w result }
    ensures held { (c : ℕ) → C.held cells.new c + at_claim work.claim c ≡ C.held cells.old c + claims_left result c }
    ensures law { Governs (C.alone cells.new) (C.law cells.new) (C.noted cells.new) (basis_of R.table setting.now) }
    ensures names { StaysGood (C.alone cells.old) (C.law cells.old) (C.noted cells.old) (C.alone cells.new) (C.law cells.new) (C.noted cells.new) (basis_of R.table setting.now) }
    ensures quiet { Becomes (C.alone cells.old) (C.noted cells.old) (C.noted cells.new) (TurnNotes result) }
    ensures same { C.same cells.old cells.new }
{
    match value.value.share() {
        Ok(given) => {
            end_value::<C, R>(&code, setting.limit, cells, work, value, left);
            below.destroy_empty();
            Turned::Over(Ok(given))
        }
        Err(_) => unshared(below, work, value),
    }
}

/// The top work ends with its value, and the one that asked for it asks again.
fn value_told<C: Cells, R: Rules>(
    setting: &Setting,
    cells: &mut C,
    below: Vec<Waiting<R>>,
    waiting: Waiting<R>,
    work: Work,
    code: Code,
    value: Proper,
    left: u64,
) -> Turned<R>
    requires ready { C.ready cells.old }
    requires law { Governs (C.alone cells.old) (C.law cells.old) (C.noted cells.old) (basis_of R.table setting.now) }
    requires over { StandsOver R.running R.table setting.now (C.seen cells.old) (C.held cells.old) (below.items ++ waiting ∷ []) work }
    requires code { IsCode setting.now code work }
    requires run { RunsTo (basis (ground R.running R.table code) setting.now.limit) (C.seen cells.old) work left (give (plain value.value)) }
    ensures stands { TurnedOn R.running R.table setting.now (C.seen cells.new) (C.held cells.new) result }
    ensures ends { (w : Duty) → Ends (C.seen cells.new) w result }
    ensures lowest { StaysLowest (lowest below.items waiting.work) result }
    ensures held { (c : ℕ) → C.held cells.new c + (at_claim work.claim c + all_claims below.items waiting.work c) ≡ C.held cells.old c + claims_left result c }
    ensures law { Governs (C.alone cells.new) (C.law cells.new) (C.noted cells.new) (basis_of R.table setting.now) }
    ensures names { StaysGood (C.alone cells.old) (C.law cells.old) (C.noted cells.old) (C.alone cells.new) (C.law cells.new) (C.noted cells.new) (basis_of R.table setting.now) }
    ensures quiet { Becomes (C.alone cells.old) (C.noted cells.old) (C.noted cells.new) (TurnNotes result) }
    ensures same { C.same cells.old cells.new }
{
    end_value::<C, R>(&code, setting.limit, cells, work, value, left);
    let Waiting { work, code, asker } = waiting;
    Turned::On(Stack {
        below,
        top: Top {
            work,
            code,
            event: Event::Asks(asker),
        },
    })
}

/// The top work ends with its value.
pub(crate) fn gives<C: Cells, R: Rules>(
    setting: &Setting,
    cells: &mut C,
    below: Vec<Waiting<R>>,
    work: Work,
    code: Code,
    value: Proper,
    left: u64,
) -> Turned<R>
    requires ready { C.ready cells.old }
    requires law { Governs (C.alone cells.old) (C.law cells.old) (C.noted cells.old) (basis_of R.table setting.now) }
    requires over { StandsOver R.running R.table setting.now (C.seen cells.old) (C.held cells.old) below.items work }
    requires code { IsCode setting.now code work }
    requires run { RunsTo (basis (ground R.running R.table code) setting.now.limit) (C.seen cells.old) work left (give (plain value.value)) }
    ensures stands { TurnedOn R.running R.table setting.now (C.seen cells.new) (C.held cells.new) result }
    ensures ends { Ends (C.seen cells.new) (lowest below.items work) result }
    ensures lowest { StaysLowest (lowest below.items work) result }
    ensures held { (c : ℕ) → C.held cells.new c + all_claims below.items work c ≡ C.held cells.old c + claims_left result c }
    ensures law { Governs (C.alone cells.new) (C.law cells.new) (C.noted cells.new) (basis_of R.table setting.now) }
    ensures names { StaysGood (C.alone cells.old) (C.law cells.old) (C.noted cells.old) (C.alone cells.new) (C.law cells.new) (C.noted cells.new) (basis_of R.table setting.now) }
    ensures quiet { Becomes (C.alone cells.old) (C.noted cells.old) (C.noted cells.new) (TurnNotes result) }
    ensures same { C.same cells.old cells.new }
{
    let mut below = below;
    match below.pop() {
        Some(waiting) => value_told(setting, cells, below, waiting, work, code, value, left),
        None => last_value(setting, cells, below, work, code, value, left),
    }
}

/// The lowest work ends with its error.
fn last_error<C: Cells, R: Rules>(
    setting: &Setting,
    cells: &mut C,
    below: Vec<Waiting<R>>,
    work: Work,
    code: Code,
    why: Thrown,
    left: u64,
) -> Turned<R>
    requires ready { C.ready cells.old }
    requires law { Governs (C.alone cells.old) (C.law cells.old) (C.noted cells.old) (basis_of R.table setting.now) }
    requires over { StandsOver R.running R.table setting.now (C.seen cells.old) (C.held cells.old) below.items work }
    requires code { IsCode setting.now code work }
    requires run { RunsTo (basis (ground R.running R.table code) setting.now.limit) (C.seen cells.old) work left (throw why) }
    requires empty { vec_len below ≡ 0 }
    requires none { below.items ≡ [] }
    ensures stands { TurnedOn R.running R.table setting.now (C.seen cells.new) (C.held cells.new) result }
    ensures ends { Ends (C.seen cells.new) work result }
    ensures lowest { (w : Duty) → StaysLowest w result }
    ensures held { (c : ℕ) → C.held cells.new c + at_claim work.claim c ≡ C.held cells.old c + claims_left result c }
    ensures law { Governs (C.alone cells.new) (C.law cells.new) (C.noted cells.new) (basis_of R.table setting.now) }
    ensures names { StaysGood (C.alone cells.old) (C.law cells.old) (C.noted cells.old) (C.alone cells.new) (C.law cells.new) (C.noted cells.new) (basis_of R.table setting.now) }
    ensures quiet { Becomes (C.alone cells.old) (C.noted cells.old) (C.noted cells.new) (TurnNotes result) }
    ensures same { C.same cells.old cells.new }
{
    end_throw::<C, R>(&code, setting.limit, cells, work, why, left);
    below.destroy_empty();
    Turned::Over(Err(why))
}

/// The top work ends with its error, and the one that asked for it throws the same.
fn error_told<C: Cells, R: Rules>(
    setting: &Setting,
    cells: &mut C,
    below: Vec<Waiting<R>>,
    waiting: Waiting<R>,
    work: Work,
    code: Code,
    why: Thrown,
    left: u64,
) -> Turned<R>
    requires ready { C.ready cells.old }
    requires law { Governs (C.alone cells.old) (C.law cells.old) (C.noted cells.old) (basis_of R.table setting.now) }
    requires over { StandsOver R.running R.table setting.now (C.seen cells.old) (C.held cells.old) (below.items ++ waiting ∷ []) work }
    requires code { IsCode setting.now code work }
    requires run { RunsTo (basis (ground R.running R.table code) setting.now.limit) (C.seen cells.old) work left (throw why) }
    ensures stands { TurnedOn R.running R.table setting.now (C.seen cells.new) (C.held cells.new) result }
    ensures ends { (w : Duty) → Ends (C.seen cells.new) w result }
    ensures lowest { StaysLowest (lowest below.items waiting.work) result }
    ensures held { (c : ℕ) → C.held cells.new c + (at_claim work.claim c + all_claims below.items waiting.work c) ≡ C.held cells.old c + claims_left result c }
    ensures law { Governs (C.alone cells.new) (C.law cells.new) (C.noted cells.new) (basis_of R.table setting.now) }
    ensures names { StaysGood (C.alone cells.old) (C.law cells.old) (C.noted cells.old) (C.alone cells.new) (C.law cells.new) (C.noted cells.new) (basis_of R.table setting.now) }
    ensures quiet { Becomes (C.alone cells.old) (C.noted cells.old) (C.noted cells.new) (TurnNotes result) }
    ensures same { C.same cells.old cells.new }
{
    end_throw::<C, R>(&code, setting.limit, cells, work, why, left);
    let Waiting { work, code, asker } = waiting;
    let left = steps_left(asker);
    Turned::On(Stack {
        below,
        top: Top {
            work,
            code,
            event: Event::Throws { why, left },
        },
    })
}

/// The top work ends with its error.
pub(crate) fn throws<C: Cells, R: Rules>(
    setting: &Setting,
    cells: &mut C,
    below: Vec<Waiting<R>>,
    work: Work,
    code: Code,
    why: Thrown,
    left: u64,
) -> Turned<R>
    requires ready { C.ready cells.old }
    requires law { Governs (C.alone cells.old) (C.law cells.old) (C.noted cells.old) (basis_of R.table setting.now) }
    requires over { StandsOver R.running R.table setting.now (C.seen cells.old) (C.held cells.old) below.items work }
    requires code { IsCode setting.now code work }
    requires run { RunsTo (basis (ground R.running R.table code) setting.now.limit) (C.seen cells.old) work left (throw why) }
    ensures stands { TurnedOn R.running R.table setting.now (C.seen cells.new) (C.held cells.new) result }
    ensures ends { Ends (C.seen cells.new) (lowest below.items work) result }
    ensures lowest { StaysLowest (lowest below.items work) result }
    ensures held { (c : ℕ) → C.held cells.new c + all_claims below.items work c ≡ C.held cells.old c + claims_left result c }
    ensures law { Governs (C.alone cells.new) (C.law cells.new) (C.noted cells.new) (basis_of R.table setting.now) }
    ensures names { StaysGood (C.alone cells.old) (C.law cells.old) (C.noted cells.old) (C.alone cells.new) (C.law cells.new) (C.noted cells.new) (basis_of R.table setting.now) }
    ensures quiet { Becomes (C.alone cells.old) (C.noted cells.old) (C.noted cells.new) (TurnNotes result) }
    ensures same { C.same cells.old cells.new }
{
    let mut below = below;
    match below.pop() {
        Some(waiting) => error_told(setting, cells, below, waiting, work, code, why, left),
        None => last_error(setting, cells, below, work, code, why, left),
    }
}
