//! How a work begins as that of a form, and how a work ends.

ghost use Rattle.std.specs.Prelude.{◌≡◌, ◌≢◌, ℕ, ◌<◌, true, Contains, Option, Some, IfOk, IsTrue};
ghost use Rattle.seq_values.specs.Plain.{plain};
ghost use Rattle.seq_values.specs.WellFormed.{is_well_formed};
ghost use Rattle.seq_plan.specs.Plan as plan;
ghost use Rattle.cell_book.specs.Account.{Account, Duty};
ghost use Rattle.cell_book.specs.Glimpses.{glimpse, Holds, IsOpen, after_open, after_end};
ghost use Rattle.lawful_works.specs.Basis.{Basis, RunsTo, Governs, StaysOn};
ghost use Rattle.lawful_works.specs.Named.{StaysGood};
ghost use Rattle.seq_lawful.specs.Runs.{MayBegin};
ghost use Rattle.lawful_works.specs.Alone.{Becomes, Grows, Quiets, BeginsQuietly};
ghost use Rattle.lawful_works.specs.Evaluated.{HasError};
ghost use Rattle.lawful_works.specs.Calls.{Governed, ComesTo, FormNext, FormOpened, OnCell, OpenedFor, Throws, HasValue};

use cell_book::{Cells, Work};
use seq_base::Thrown;
use seq_values::Value;
use seq_vector::NoMemory;

/// Begins a form. Its work is at the start of its run.
pub fn begin<C: Cells>(cells: &mut C, form: u32) -> Result<Work, NoMemory>
    requires ready { C.ready cells.old }
    requires leads { C.leads cells.old ≡ true }
    requires unbegun { ¬ Contains (C.seen cells.old).begun form }
    requires next { FormNext (C.alone cells.old) (C.law cells.old) (C.noted cells.old) form }
    ensures opened { IfOk result (λ w. FormOpened (C.seen cells.old) (C.seen cells.new) w) }
    ensures others { (w : Duty) → 0 < C.held cells.old w.claim → StaysOn (C.seen cells.old) (C.seen cells.new) w }
    ensures law { Governed (C.alone cells.new) (C.law cells.new) (C.noted cells.new) }
    ensures fresh { IfOk result (λ w. C.held cells.old w.claim ≡ 0) }
    ensures quiet { Becomes (C.alone cells.old) (C.noted cells.old) (C.noted cells.new) (BeginsQuietly form result) }
    ensures names { (y : Basis) (a : Account) → C.noted cells.old a → MayBegin y.rules y.program y.limit (glimpse a) form → StaysGood (C.alone cells.old) (C.law cells.old) (C.noted cells.old) (C.alone cells.new) (C.law cells.new) (C.noted cells.new) y }
    ensures held { (c : ℕ) → C.held cells.new c ≡ after_open (C.held cells.old) result c }
    ensures same { C.same cells.old cells.new }
{
    cells.begin_form(form)
}

/// The run has come to a value, and so its form or part has it.
pub fn finish<C: Cells>(cells: &mut C, work: Work, value: Value)
    requires ready { C.ready cells.old }
    requires own { 0 < C.held cells.old work.claim }
    requires well { IsTrue (is_well_formed value) }
    requires run { ComesTo (C.alone cells.old) (C.law cells.old) (C.noted cells.old) (C.seen cells.old) work (plan.give (plain value)) }
    ensures value { HasValue (C.seen cells.new) work value }
    ensures others { (w : Duty) → 0 < C.held cells.old w.claim → w.claim ≢ work.claim → StaysOn (C.seen cells.old) (C.seen cells.new) w }
    ensures holds { (c : ℕ) → 0 < C.held cells.old c → c ≢ work.claim → Holds c (C.seen cells.old) (C.seen cells.new) }
    ensures law { (y : Basis) (left : ℕ) → Governs (C.alone cells.old) (C.law cells.old) (C.noted cells.old) y → RunsTo y (C.seen cells.old) work left (plan.give (plain value)) → Governs (C.alone cells.new) (C.law cells.new) (C.noted cells.new) y }
    ensures quiet { Becomes (C.alone cells.old) (C.noted cells.old) (C.noted cells.new) Quiets }
    ensures names { (y : Basis) (left : ℕ) → RunsTo y (C.seen cells.old) work left (plan.give (plain value)) → StaysGood (C.alone cells.old) (C.law cells.old) (C.noted cells.old) (C.alone cells.new) (C.law cells.new) (C.noted cells.new) y }
    ensures held { (c : ℕ) → C.held cells.new c ≡ after_end (C.held cells.old) work c }
    ensures same { C.same cells.old cells.new }
{
    cells.finish(work, value);
}

/// The run has come to an error. The work that asked for this one throws the same, and all others stay where they are.
pub fn end<C: Cells>(cells: &mut C, work: Work, why: Thrown)
    requires ready { C.ready cells.old }
    requires own { 0 < C.held cells.old work.claim }
    requires run { ComesTo (C.alone cells.old) (C.law cells.old) (C.noted cells.old) (C.seen cells.old) work (plan.throw why) }
    ensures error { HasError (C.seen cells.new) work why }
    ensures asker { (w : Duty) (c : ℕ) → 0 < C.held cells.old w.claim → w.claim ≢ work.claim → OnCell (C.seen cells.old) work (Some w.claim) c → Throws (C.seen cells.old) (C.seen cells.new) w c why }
    ensures others { (w : Duty) (asker : Option ℕ) → 0 < C.held cells.old w.claim → w.claim ≢ work.claim → OpenedFor (C.seen cells.old) work asker → asker ≢ Some w.claim → StaysOn (C.seen cells.old) (C.seen cells.new) w }
    ensures holds { (c : ℕ) → 0 < C.held cells.old c → c ≢ work.claim → Holds c (C.seen cells.old) (C.seen cells.new) }
    ensures law { (y : Basis) (left : ℕ) → Governs (C.alone cells.old) (C.law cells.old) (C.noted cells.old) y → RunsTo y (C.seen cells.old) work left (plan.throw why) → Governs (C.alone cells.new) (C.law cells.new) (C.noted cells.new) y }
    ensures quiet { Becomes (C.alone cells.old) (C.noted cells.old) (C.noted cells.new) Quiets }
    ensures names { (y : Basis) (left : ℕ) → RunsTo y (C.seen cells.old) work left (plan.throw why) → StaysGood (C.alone cells.old) (C.law cells.old) (C.noted cells.old) (C.alone cells.new) (C.law cells.new) (C.noted cells.new) y }
    ensures held { (c : ℕ) → C.held cells.new c ≡ after_end (C.held cells.old) work c }
    ensures same { C.same cells.old cells.new }
{
    cells.fail(work, why);
}

/// Gives a work up, wherever its run is.
pub fn lose<C: Cells>(cells: &mut C, work: Work)
    requires ready { C.ready cells.old }
    requires own { 0 < C.held cells.old work.claim }
    requires open { IsOpen (C.seen cells.old) work }
    requires law { Governed (C.alone cells.old) (C.law cells.old) (C.noted cells.old) }
    ensures gave_up { (C.seen cells.new).gave_up ≡ true }
    ensures others { (w : Duty) → 0 < C.held cells.old w.claim → w.claim ≢ work.claim → StaysOn (C.seen cells.old) (C.seen cells.new) w }
    ensures holds { (c : ℕ) → 0 < C.held cells.old c → c ≢ work.claim → Holds c (C.seen cells.old) (C.seen cells.new) }
    ensures law { (y : Basis) → Governs (C.alone cells.old) (C.law cells.old) (C.noted cells.old) y → Governs (C.alone cells.new) (C.law cells.new) (C.noted cells.new) y }
    ensures quiet { Becomes (C.alone cells.old) (C.noted cells.old) (C.noted cells.new) Grows }
    ensures names { (y : Basis) → StaysGood (C.alone cells.old) (C.law cells.old) (C.noted cells.old) (C.alone cells.new) (C.law cells.new) (C.noted cells.new) y }
    ensures held { (c : ℕ) → C.held cells.new c ≡ after_end (C.held cells.old) work c }
    ensures same { C.same cells.old cells.new }
{
    cells.give_up(work);
}
