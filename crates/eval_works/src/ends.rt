//! The end of one work.
ghost use Rattle.std.specs.Prelude.{◌≡◌, ◌≢◌, ℕ, ◌<◌, Option, Some};
ghost use Rattle.seq_values.specs.Plain.{plain};
ghost use Rattle.seq_plan.specs.Plan.{give, throw};
ghost use Rattle.cell_book.specs.Account.{Duty};
ghost use Rattle.cell_book.specs.Glimpses.{Holds, after_end};
ghost use Rattle.eval_frames.specs.Frames.{ground};
ghost use Rattle.lawful_works.specs.Basis.{RunsTo, Governs, StaysOn};
ghost use Rattle.lawful_works.specs.Calls.{OnCell, OpenedFor, Throws, HasValue};
ghost use Rattle.lawful_works.specs.Named.{StaysGood};
ghost use Rattle.lawful_works.specs.Alone.{Becomes, Quiets};
ghost use Rattle.lawful_works.specs.Evaluated.{HasError};
ghost use Rattle.eval_works.specs.Standing.{basis};

use cell_book::{Cells, Work};
use eval_frames::{Code, Rules};
use lawful_works::{end, finish};
use seq_base::Thrown;
use seq_turns::Proper;

/// The run has come to a value, and so its form or part has it. The works that wait stay where they are.
pub fn end_value<C: Cells, R: Rules>(
    code: &Code,
    limit: u64,
    cells: &mut C,
    work: Work,
    value: Proper,
    left: u64,
)
    requires ready { C.ready cells.old }
    requires own { 0 < C.held cells.old work.claim }
    requires law { Governs (C.alone cells.old) (C.law cells.old) (C.noted cells.old) (basis (ground R.running R.table code.now) limit) }
    requires run { RunsTo (basis (ground R.running R.table code.now) limit) (C.seen cells.old) work left (give (plain value.value)) }
    ensures value { HasValue (C.seen cells.new) work value.value }
    ensures others { (w : Duty) → 0 < C.held cells.old w.claim → w.claim ≢ work.claim → StaysOn (C.seen cells.old) (C.seen cells.new) w }
    ensures holds { (c : ℕ) → 0 < C.held cells.old c → c ≢ work.claim → Holds c (C.seen cells.old) (C.seen cells.new) }
    ensures law { Governs (C.alone cells.new) (C.law cells.new) (C.noted cells.new) (basis (ground R.running R.table code.now) limit) }
    ensures quiet { Becomes (C.alone cells.old) (C.noted cells.old) (C.noted cells.new) Quiets }
    ensures names { StaysGood (C.alone cells.old) (C.law cells.old) (C.noted cells.old) (C.alone cells.new) (C.law cells.new) (C.noted cells.new) (basis (ground R.running R.table code.now) limit) }
    ensures held { (c : ℕ) → C.held cells.new c ≡ after_end (C.held cells.old) work c }
    ensures same { C.same cells.old cells.new }
{
    finish(cells, work, value.value);
}

/// The run has come to an error. The work that asked for this one throws the same.
pub fn end_throw<C: Cells, R: Rules>(
    code: &Code,
    limit: u64,
    cells: &mut C,
    work: Work,
    why: Thrown,
    left: u64,
)
    requires ready { C.ready cells.old }
    requires own { 0 < C.held cells.old work.claim }
    requires law { Governs (C.alone cells.old) (C.law cells.old) (C.noted cells.old) (basis (ground R.running R.table code.now) limit) }
    requires run { RunsTo (basis (ground R.running R.table code.now) limit) (C.seen cells.old) work left (throw why) }
    ensures error { HasError (C.seen cells.new) work why }
    ensures asker { (w : Duty) (c : ℕ) → 0 < C.held cells.old w.claim → w.claim ≢ work.claim → OnCell (C.seen cells.old) work (Some w.claim) c → Throws (C.seen cells.old) (C.seen cells.new) w c why }
    ensures others { (w : Duty) (asker : Option ℕ) → 0 < C.held cells.old w.claim → w.claim ≢ work.claim → OpenedFor (C.seen cells.old) work asker → asker ≢ Some w.claim → StaysOn (C.seen cells.old) (C.seen cells.new) w }
    ensures holds { (c : ℕ) → 0 < C.held cells.old c → c ≢ work.claim → Holds c (C.seen cells.old) (C.seen cells.new) }
    ensures law { Governs (C.alone cells.new) (C.law cells.new) (C.noted cells.new) (basis (ground R.running R.table code.now) limit) }
    ensures quiet { Becomes (C.alone cells.old) (C.noted cells.old) (C.noted cells.new) Quiets }
    ensures names { StaysGood (C.alone cells.old) (C.law cells.old) (C.noted cells.old) (C.alone cells.new) (C.law cells.new) (C.noted cells.new) (basis (ground R.running R.table code.now) limit) }
    ensures held { (c : ℕ) → C.held cells.new c ≡ after_end (C.held cells.old) work c }
    ensures same { C.same cells.old cells.new }
{
    end(cells, work, why);
}
