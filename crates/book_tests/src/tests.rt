ghost use Rattle.std.specs.Prelude.{◌≡◌, [], IfOk};

use crate::{form_given_up, form_with_part};
use cell_book::{Book, Cells, ClaimEnd, ClaimRefusal, Look, MakeRefusal, PlainCells, Totals};
use cell_client::{add, begin, claims_once, fails, fill, next, refusal, see};
use seq_base::Thrown;
use seq_values::{CellId, Kind, Value};
use seq_vector::NoMemory;
use std::test::Fail;

fn book(rt: &HostRuntime, cells: u32) -> Result<Book, Fail>
    ensures { IfOk result (λ b. (b.cells ≡ []) × (b.forms ≡ [])) }
{
    match Book::new(rt.alloc(), cells) {
        Ok(book) => Ok(book),
        Err(_) => Err(Fail::from("memory")),
    }
}

fn part(number: u32) -> Result<CellId, Fail> {
    match CellId::of(number) {
        Some(id) => Ok(id),
        None => Err(Fail::from("number")),
    }
}

fn is_made(answer: Result<CellId, MakeRefusal>, number: u32) -> bool {
    matches!(&answer, Ok(id) if id.number() == number)
}

fn is_spent(answer: Result<CellId, MakeRefusal>) -> bool {
    matches!(&answer, Err(MakeRefusal::Spent(_)))
}

fn is_given_up(refusal: Option<ClaimRefusal>) -> bool {
    matches!(&refusal, Some(ClaimRefusal::GaveUp))
}

fn is_unknown(answer: Result<Look, NoMemory>) -> bool {
    matches!(&answer, Ok(Look::Unknown))
}

#[test]
#[tactic(auto, using(crate::proofs::Works::sevens_at_first))]
fn a_book_of_one_cell(rt: HostRuntime) -> Result<(), Fail> {
    let first = part(1)?;
    let mut book = book(&rt, 1)?;
    let mut cells = PlainCells::over(&mut book);
    let Ok(form) = begin(&mut cells, 1) else {
        return Err(Fail::from("memory"));
    };
    assert!(rt; is_made(add(&mut cells, &form, Kind::Lazy), 1));
    assert!(rt; is_spent(add(&mut cells, &form, Kind::Lazy)));
    assert!(rt; claims_once(&mut cells, &form, first));
    cells.give_up(form);
    Ok(())
}

#[test]
#[tactic(auto, using(crate::proofs::Works::sevens_at_first))]
fn no_claim_after_a_give_up(rt: HostRuntime) -> Result<(), Fail> {
    let first = part(1)?;
    let second = part(2)?;
    let mut book = book(&rt, 2)?;
    let mut cells = PlainCells::over(&mut book);
    let Ok(form) = begin(&mut cells, 1) else {
        return Err(Fail::from("memory"));
    };
    assert!(rt; is_made(add(&mut cells, &form, Kind::Lazy), 1));
    assert!(rt; claims_once(&mut cells, &form, first));
    assert!(rt; is_unknown(see(&mut cells, &form, second)));
    assert!(rt; is_given_up(refusal(&mut cells, &form, first)));
    cells.give_up(form);
    Ok(())
}

#[test]
#[tactic(auto, using(crate::proofs::Works::sevens_at_first))]
fn a_million_cells(rt: HostRuntime) -> Result<(), Fail> {
    let mut book = book(&rt, 1_048_576)?;
    let mut cells = PlainCells::over(&mut book);
    let Ok(form) = begin(&mut cells, 1) else {
        return Err(Fail::from("memory"));
    };
    assert!(rt; fill(&mut cells, &form, 1_048_576));
    cells.finish(form, Value::Int(7));
    Ok(())
}

#[test]
fn a_later_form_has_the_values_before(rt: HostRuntime) -> Result<(), Fail> {
    let mut book = book(&rt, 0)?;
    let mut cells = PlainCells::over(&mut book);
    let Ok(first) = cells.begin_form(1) else {
        return Err(Fail::from("memory"));
    };
    cells.finish(first, Value::Int(5));
    let Ok(second) = cells.begin_form(2) else {
        return Err(Fail::from("memory"));
    };
    let outcomes = second.outcomes();
    assert!(rt; outcomes.len() == 1);
    assert!(rt; matches!(outcomes.get(0), Some(Value::Int(5))));
    cells.give_up(second);
    Ok(())
}

fn is_part(found: Option<CellId>, number: u32) -> bool {
    matches!(&found, Some(id) if id.number() == number)
}

fn is_thrown(look: Option<Look>) -> bool {
    matches!(&look, Some(Look::Failed(Thrown::Divide)))
}

fn is_empty(look: Option<Look>) -> bool {
    matches!(&look, Some(Look::Empty))
}

fn is_seen_failed(refusal: Option<ClaimRefusal>) -> bool {
    matches!(
        &refusal,
        Some(ClaimRefusal::Seen(Look::Failed(Thrown::Divide)))
    )
}

#[test]
#[tactic(auto, using(crate::proofs::Works::sevens_at_first))]
fn futures_fail_and_open(rt: HostRuntime) -> Result<(), Fail> {
    let first = part(1)?;
    let second = part(2)?;
    let third = part(3)?;
    let mut book = book(&rt, 3)?;
    let mut cells = PlainCells::over(&mut book);
    let Ok(form) = begin(&mut cells, 1) else {
        return Err(Fail::from("memory"));
    };
    assert!(rt; next(&mut cells, &form).is_none());
    assert!(rt; is_made(add(&mut cells, &form, Kind::Lazy), 1));
    assert!(rt; is_made(add(&mut cells, &form, Kind::Future), 2));
    assert!(rt; is_made(add(&mut cells, &form, Kind::Future), 3));
    assert!(rt; is_part(next(&mut cells, &form), 2));
    assert!(rt; is_thrown(fails(&mut cells, &form, second)));
    assert!(rt; is_part(next(&mut cells, &form), 3));
    assert!(rt; is_empty(fails(&mut cells, &form, first)));
    assert!(rt; is_empty(fails(&mut cells, &form, first)));
    assert!(rt; claims_once(&mut cells, &form, third));
    assert!(rt; is_part(next(&mut cells, &form), 3));
    assert!(rt; is_seen_failed(refusal(&mut cells, &form, second)));
    assert!(rt; is_given_up(refusal(&mut cells, &form, third)));
    cells.give_up(form);
    assert!(rt;
        book.totals()
            == Totals {
                made: 3,
                realised: 0,
                failed: 3
            }
    );
    Ok(())
}

#[test]
#[tactic(auto, using(crate::proofs::Works::sevens_at_first))]
fn a_form_after_a_thousand_claims(rt: HostRuntime) -> Result<(), Fail> {
    let last = part(1001)?;
    let mut book = book(&rt, 1_001)?;
    let mut cells = PlainCells::over(&mut book);
    let Ok(form) = begin(&mut cells, 1) else {
        return Err(Fail::from("memory"));
    };
    assert!(rt; fill(&mut cells, &form, 1_001));
    cells.finish(form, Value::Int(7));
    assert!(rt; form_given_up(&mut book, 2) == Some((1, Some(7))));
    assert!(rt; form_given_up(&mut book, 3) == Some((2, Some(7))));
    assert!(rt;
        book.totals()
            == Totals {
                made: 1_001,
                realised: 1_001,
                failed: 0
            }
    );
    assert!(rt; book.has_given_up() && !book.is_spent());
    assert!(rt; book.open_claim().is_none());
    assert!(rt; matches!(book.kind(last), Some(Kind::Lazy)));
    assert!(rt; book.maker(last) == Some((0, 1_001)));
    assert!(rt; book.attempt(last, 0) == Some((1_001, ClaimEnd::Value)));
    assert!(rt; book.attempt(last, 1).is_none());
    assert!(rt; matches!(book.value(last), Some(Value::Int(7))));
    assert!(rt; book.form_claim(2) == Some((1_002, ClaimEnd::GivenUp)));
    assert!(rt; book.form_claim(4).is_none());
    assert!(rt; matches!(book.form_value(1), Some(Value::Int(7))));
    assert!(rt; book.form_value(2).is_none());
    Ok(())
}

#[test]
fn many_forms_with_a_part_each(rt: HostRuntime) -> Result<(), Fail> {
    let mut book = book(&rt, 100_000)?;
    for number in 1..100_001 {
        if !form_with_part(&mut book, number) {
            return Err(Fail::from("refused"));
        }
    }
    assert!(rt;
        book.totals()
            == Totals {
                made: 100_000,
                realised: 0,
                failed: 0
            }
    );
    Ok(())
}
