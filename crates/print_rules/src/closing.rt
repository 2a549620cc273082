//! What comes after a value of which the whole text stands there.
ghost use Rattle.std.specs.Prelude.{◌<◌, ◌+◌, ◌++◌, true, length, drop, IfOk};
ghost use Rattle.print_rules.specs.Left.{after_value, elements_from, items_from, resolved, resumes, Takes};
ghost use Rattle.print_rules.specs.Closing.{Resumes, IsWithin};
ghost use Rattle.seq_meaning.specs.Prints.{print_items};
ghost use Rattle.seq_plan.specs.Cursors.{stands};
ghost use Rattle.seq_plan.specs.Plan.{seq, then, give};
ghost use Rattle.seq_turns.specs.Seen.{seen, rested, NotNow};
ghost use Rattle.seq_values.specs.Model as M;
ghost use Rattle.seq_values.specs.Plain.{plain, plains};

use crate::state::{Around, Printing, State};
use crate::texts::let_go;
use seq_plan::Cursor;
use seq_turns::{
    Next, Proper, ProperList, Rest, Seen, Sought, gives, seek_rest, seeks, split_cursor, visits,
};
use seq_vector::NoMemory;
use std::alloc::Global;

/// What comes after a value.
#[derive(Drop)]
pub(crate) enum Resumed {
    /// The rule takes a turn.
    Turn(Next<State>),
    /// What it was printed within is over, and its whole text stands there.
    Closed(Printing),
}

/// Goes on after a value, by what waits for its text. It closes all that is over.
pub(crate) fn resume(alloc: Global, printing: Printing) -> Result<Next<State>, NoMemory>
    ensures { IfOk result (λ r. Takes (resumes printing) r) }
{
    let mut printing = printing;
    loop {
        let resumed = resume_once(alloc, printing)?;
        match resumed {
            Resumed::Turn(next) => return Ok(next),
            Resumed::Closed(closed) => printing = closed,
        }
    }
}

/// Goes on after a value, by the innermost that waits for its text.
fn resume_once(alloc: Global, printing: Printing) -> Result<Resumed, NoMemory>
    ensures goes { IfOk result (λ c. Resumes (resumes printing) c) }
    ensures fewer { IfOk result (λ c. IsWithin c (length printing.around.items)) }
{
    let Printing { text, mut around } = printing;
    match around.pop() {
        None => finish(alloc, Printing { text, around }),
        Some(innermost) => after_one(innermost, Printing { text, around }),
    }
}

/// Nothing waits any more.
fn finish(alloc: Global, printing: Printing) -> Result<Resumed, NoMemory>
    ensures goes { IfOk result (λ c. Resumes (give (M.text printing.text)) c) }
    ensures fewer { IfOk result (λ c. IsWithin c 0) }
{
    let value = printing.finished(alloc)?;
    Ok(Resumed::Turn(gives(State::Over, value)))
}

/// Goes on with what the value was printed within.
fn after_one(innermost: Around, printing: Printing) -> Result<Resumed, NoMemory>
    ensures goes { IfOk result (λ c. Resumes (then (after_value innermost (M.text printing.text)) (resolved printing)) c) }
    ensures fewer { IfOk result (λ c. IsWithin c (length printing.around.items + 1)) }
{
    match innermost {
        Around::Items { items, at } => after_item(items, at, printing),
        Around::Elements { rest } => after_element(rest, printing),
    }
}

/// The items of a vector from a place on, after another one.
fn after_item(items: ProperList, at: usize, printing: Printing) -> Result<Resumed, NoMemory>
    ensures goes { IfOk result (λ c. Resumes (then (print_items (plains (drop at items.items)) (M.text printing.text)) (resolved printing)) c) }
    ensures fewer { IfOk result (λ c. IsWithin c (length printing.around.items + 1)) }
{
    if at < items.len() {
        let next = print_item(items, at, b" ", printing)?;
        return Ok(Resumed::Turn(next));
    }
    let_go(items);
    let printing = printing.with(b"]")?;
    Ok(Resumed::Closed(printing))
}

/// The item of a vector at a place, after these bytes. The items behind it wait.
pub(crate) fn print_item(
    items: ProperList,
    at: usize,
    before: &[u8],
    printing: Printing,
) -> Result<Next<State>, NoMemory>
    requires { at < length items.items }
    ensures { IfOk result (λ r. Takes (items_from (printing.text ++ before.now) (plains (drop at items.items)) (resolved printing)) r) }
{
    let value = items.at(at)?;
    let printing = printing.with(before)?;
    let printing = printing.within(Around::Items { items, at: at + 1 })?;
    Ok(visits(State::Step { value, printing }))
}

/// Asks for the elements of a value that aren't there at once.
pub(crate) fn ask_elements(after: bool, value: Proper, printing: Printing) -> Next<State>
    requires { NotNow (plain value.value) }
    ensures { Takes (seq (plain value.value) (λ s. elements_from (M.text printing.text) after s (resolved printing))) result }
{
    seeks(State::Seq { after, printing }, value)
}

/// What comes after an element of a node or a lazy part.
fn after_element(rest: Rest, printing: Printing) -> Result<Resumed, NoMemory>
    ensures goes { IfOk result (λ c. Resumes (seq (rested rest) (λ u. elements_from (M.text printing.text) true u (resolved printing))) c) }
    ensures fewer { IfOk result (λ c. IsWithin c (length printing.around.items + 1)) }
{
    match seek_rest(rest) {
        Sought::Now(what) => next_element(true, what, printing),
        Sought::Ask(value) => Ok(Resumed::Turn(ask_elements(true, value, printing))),
    }
}

/// The elements of a node or a lazy part: the first of them, or the end.
pub(crate) fn next_element(after: bool, what: Seen, printing: Printing) -> Result<Resumed, NoMemory>
    ensures goes { IfOk result (λ c. Resumes (elements_from (M.text printing.text) after (seen what) (resolved printing)) c) }
    ensures fewer { IfOk result (λ c. IsWithin c (length printing.around.items + 1)) }
{
    match what {
        Seen::Nil => {
            let printing = printing.with(b")")?;
            Ok(Resumed::Closed(printing))
        }
        Seen::At(place) => {
            let next = print_element(after, place, printing)?;
            Ok(Resumed::Turn(next))
        }
    }
}

/// The first element of a node. What comes after it waits.
fn print_element(after: bool, place: Cursor, printing: Printing) -> Result<Next<State>, NoMemory>
    ensures { IfOk result (λ r. Takes (elements_from (M.text printing.text) after (stands place) (resolved printing)) r) }
{
    let split = split_cursor(place)?;
    let printing = printing.spaced(after)?;
    let printing = printing.within(Around::Elements { rest: split.rest })?;
    Ok(visits(State::Step {
        value: split.first,
        printing,
    }))
}
