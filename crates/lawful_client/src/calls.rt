//! Each call on any cells, by one whose book is lawful and whose work is on its run: what the calls demand of their law follows.

ghost use Rattle.std.specs.Prelude.{◌≡◌, true, Contains, IfOk};
ghost use Rattle.seq_values.specs.Plain.{plain, plain_term};
ghost use Rattle.seq_plan.specs.Plan.{give, throw};
ghost use Rattle.cell_book.specs.Glimpses.{Owns};
ghost use Rattle.lawful_client.specs.Ruled.{Ruled, RunTo, AsksNext, MakesNext, Futures, Leads, StartsPart, StartsForm};

use cell_book::{Cells, ClaimRefusal, MakeRefusal, Work};
use seq_base::Thrown;
use seq_values::{CellId, Kind, Term, Value};
use seq_vector::NoMemory;

/// Begins a form.
pub fn begin<C: Cells>(cells: &mut C, form: u32) -> Result<Work, NoMemory>
    requires ready { C.ready cells.old }
    requires leads { C.leads cells.old ≡ true }
    requires unbegun { ¬ Contains (C.seen cells.old).begun form }
    requires run { Leads (C.alone cells.old) (C.law cells.old) (C.noted cells.old) form }
    ensures starts { IfOk result (λ w. StartsForm (C.seen cells.old) (C.seen cells.new) w) }
{
    cells.begin_form(form)
}

/// Makes a part.
pub fn add<C: Cells>(
    cells: &mut C,
    by: &Work,
    term: Term,
    kind: Kind,
) -> Result<CellId, MakeRefusal>
    requires ready { C.ready cells.old }
    requires own { Owns (C.held cells.old) (C.seen cells.old) by.now }
    requires run { MakesNext (C.alone cells.old) (C.law cells.old) (C.noted cells.old) (C.seen cells.old) by.now kind (plain_term term) }
{
    cells.make(by, term, kind)
}

/// Claims a part that the run needs.
pub fn ask<C: Cells>(cells: &mut C, by: &Work, id: CellId) -> Result<Work, ClaimRefusal>
    requires ready { C.ready cells.old }
    requires own { Owns (C.held cells.old) (C.seen cells.old) by.now }
    requires run { AsksNext (C.alone cells.old) (C.law cells.old) (C.noted cells.old) (C.seen cells.old) by.now id }
    ensures starts { IfOk result (λ w. StartsPart (C.seen cells.new) w) }
{
    cells.claim(id, Some(by))
}

/// Claims a future for nobody.
pub fn start<C: Cells>(cells: &mut C, id: CellId) -> Result<Work, ClaimRefusal>
    requires ready { C.ready cells.old }
    requires run { Futures (C.alone cells.old) (C.law cells.old) (C.noted cells.old) (C.seen cells.old) id }
    ensures starts { IfOk result (λ w. StartsPart (C.seen cells.new) w) }
{
    cells.claim(id, None)
}

/// Finishes a work.
pub fn finish<C: Cells>(cells: &mut C, work: Work, value: Value)
    requires ready { C.ready cells.old }
    requires own { Owns (C.held cells.old) (C.seen cells.old) work }
    requires run { RunTo (C.alone cells.old) (C.law cells.old) (C.noted cells.old) (C.seen cells.old) work (give (plain value)) }
{
    cells.finish(work, value);
}

/// Ends a work by an error.
pub fn end<C: Cells>(cells: &mut C, work: Work, why: Thrown)
    requires ready { C.ready cells.old }
    requires own { Owns (C.held cells.old) (C.seen cells.old) work }
    requires run { RunTo (C.alone cells.old) (C.law cells.old) (C.noted cells.old) (C.seen cells.old) work (throw why) }
{
    cells.fail(work, why);
}

/// Gives a work up, wherever its run is.
pub fn lose<C: Cells>(cells: &mut C, work: Work)
    requires ready { C.ready cells.old }
    requires own { Owns (C.held cells.old) (C.seen cells.old) work }
    requires law { Ruled (C.alone cells.old) (C.law cells.old) (C.noted cells.old) }
{
    cells.give_up(work);
}
