//! Tests of the book of cells and of its client.
#![tactic(auto)]

ghost use Rattle.std.specs.Prelude.{◌≡◌};

mod lent;
#[cfg(test)]
mod tests;

use cell_book::Book;
pub use lent::Lent;
use seq_values::{Kind, Op, Term, Value};
use seq_vector::PVec;

/// Begins a form, makes a part by it, and ends it with 7. It tells whether there was memory and room.
#[tactic(auto, using(crate::proofs::Works::begun_is_open, crate::proofs::Works::made_is_open))]
pub fn form_with_part(book: &mut Book, number: u32) -> bool {
    let Ok(work) = book.begin_form(number) else {
        return false;
    };
    let term = Term {
        op: Op::Repeat,
        args: PVec::new(),
    };
    let made = book.make(&work, term, Kind::Lazy).is_ok();
    book.finish(work, Value::Int(7));
    made
}

/// Begins a form and gives it up. It tells how many values its work had, and what the first was.
#[tactic(auto, using(crate::proofs::Works::begun_is_open))]
pub fn form_given_up(book: &mut Book, number: u32) -> Option<(usize, Option<i64>)> {
    let Ok(work) = book.begin_form(number) else {
        return None;
    };
    let first = match work.outcomes().get(0) {
        Some(Value::Int(value)) => Some(*value),
        _ => None,
    };
    let count = work.outcomes().len();
    book.give_up(work);
    Some((count, first))
}
