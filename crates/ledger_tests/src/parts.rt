//! Parts of a book that nobody shares.
ghost use Rattle.std.specs.Prelude.{◌≡◌, Some, IfSome};
ghost use Rattle.cell_book.specs.Account.{cell_at};
ghost use Rattle.cell_book.specs.Readers.{value_in};
ghost use Rattle.cell_book.specs.Steps.{IsOpenIn};
ghost use Rattle.ledger_tests.specs.Places.{IsOn};

use cell_book::{Book, Work};
use seq_values::{CellId, Kind, Op, Term, Value};
use seq_vector::PVec;

/// A future that a form makes. The form ends at once. `None` where there is no memory or room.
#[tactic(auto, using(crate::proofs::Opening::begun_is_open, crate::proofs::Opening::made_is_open))]
fn made_part(book: &mut Book) -> Option<CellId> {
    let Ok(form) = book.begin_form(1) else {
        return None;
    };
    let term = Term {
        op: Op::Repeat,
        args: PVec::new(),
    };
    let made = book.make(&form, term, Kind::Future);
    book.finish(form, Value::Nil);
    made.ok()
}

/// The work on a part, which nobody asked for.
#[tactic(auto, using(crate::proofs::Opening::claimed_is_open, crate::proofs::Opening::claimed_is_on))]
fn claimed_part(book: &mut Book, id: CellId) -> Option<Work>
    ensures open { IfSome result (λ w. IsOpenIn book.new w) }
    ensures on { IfSome result (λ w. IsOn id w.place) }
{
    match book.claim(id, None) {
        Ok(work) => Some(work),
        Err(_) => None,
    }
}

/// Finishes the work on a part.
#[tactic(auto, using(crate::proofs::Opening::finished_shows))]
fn finished(book: &mut Book, id: CellId, work: Work, value: Value)
    requires open { IsOpenIn book.old work }
    requires on { IsOn id work.place }
    ensures { value_in (cell_at book.new id) ≡ Some value }
{
    book.finish(work, value);
}

/// A part that was made, and that has this value. `None` where there is no memory or room.
pub fn done_part(book: &mut Book, value: Value) -> Option<CellId>
    ensures { IfSome result (λ id. value_in (cell_at book.new id) ≡ Some value) }
{
    let id = made_part(book)?;
    let work = claimed_part(book, id)?;
    finished(book, id, work, value);
    Some(id)
}
