//! A rule is answered turn by turn, until it ends.
ghost use Rattle.std.specs.Prelude.{◌≡◌, IfOk, IfSome};
ghost use Rattle.fold_rules.specs.Left.{wait_of};
ghost use Rattle.seq_turns.specs.Turning.{Fits, IsSeq, a_seq, a_value, a_part};
ghost use Rattle.seq_values.specs.Plain.{plain};

use crate::asked::Asked;
use crate::world::answer_of;
use fold_rules::{RuleState, turn};
use seq_turns::{Proper, ProperList};
use seq_values::{Answer, CellId, Turn, Value};
use seq_vector::NoMemory;
use std::alloc::Global;
use std::test::Fail;
use turn_lines::{Elements, Keeper, Kept, Record, needed, sought};

pub(crate) fn full(_why: NoMemory) -> Fail {
    Fail::from("no memory")
}

/// The next turn.
fn told(alloc: Global, state: RuleState, answer: Answer) -> Result<Asked, Fail>
    requires { Fits (wait_of state.state) answer }
{
    match turn(alloc, state, answer) {
        Ok((state, turn)) => Ok(Asked { state, turn }),
        Err(why) => Err(full(why)),
    }
}

/// A value that isn't needed any more. A rule is let go here alone, as there are many forms of it.
fn let_go<T: Drop>(_value: T) {}

/// There was no memory for an answer.
fn no_memory(state: RuleState, why: NoMemory) -> Result<Asked, Fail> {
    let_go(state);
    Err(full(why))
}

/// The rule ends with what it asked last.
fn ended(state: RuleState) -> Result<Option<Asked>, Fail> {
    let_go(state);
    Ok(None)
}

fn goes_on(next: Result<Asked, Fail>) -> Result<Option<Asked>, Fail> {
    match next {
        Ok(next) => Ok(Some(next)),
        Err(why) => Err(why),
    }
}

#[tactic(auto, using(turn_lines::proofs::Fitting::seq_fits))]
/// The `seq` that was asked is told.
fn told_seq(alloc: Global, state: RuleState, given: Proper) -> Result<Option<Asked>, Fail>
    requires waits { wait_of state.state ≡ a_seq }
    requires seq { IsSeq (plain given.value) }
{
    goes_on(told(alloc, state, Answer::Got(given.value)))
}

/// A `seq` is answered, unless the value has none.
fn told_sought(
    alloc: Global,
    state: RuleState,
    given: Result<Option<Proper>, NoMemory>,
) -> Result<Option<Asked>, Fail>
    requires waits { wait_of state.state ≡ a_seq }
    requires seq { IfOk given (λ x. IfSome x (λ v. IsSeq (plain v.value))) }
{
    match given {
        Ok(Some(given)) => told_seq(alloc, state, given),
        Ok(None) => ended(state),
        Err(why) => goes_on(no_memory(state, why)),
    }
}

/// The `seq` of a value that isn't there at once.
fn seq_of(alloc: Global, value: Value, elements: Elements) -> Result<Option<Proper>, NoMemory>
    ensures { IfOk result (λ x. IfSome x (λ v. IsSeq (plain v.value))) }
{
    let given = sought(alloc, &value, elements)?;
    Ok(given)
}

#[tactic(auto, using(turn_lines::proofs::Fitting::value_fits))]
/// A value that was asked is told.
fn told_value(
    alloc: Global,
    state: RuleState,
    value: Result<Proper, NoMemory>,
) -> Result<Asked, Fail>
    requires { wait_of state.state ≡ a_value }
{
    match value {
        Ok(value) => told(alloc, state, Answer::Got(value.value)),
        Err(why) => no_memory(state, why),
    }
}

fn no_part(state: RuleState) -> Result<Asked, Fail> {
    let_go(state);
    Err(Fail::from("no part"))
}

#[tactic(auto, using(turn_lines::proofs::Fitting::part_fits))]
/// The part was made.
fn told_made(alloc: Global, state: RuleState, id: Option<CellId>) -> Result<Asked, Fail>
    requires { wait_of state.state ≡ a_part }
{
    match id {
        None => no_part(state),
        Some(id) => told(alloc, state, Answer::Made(id)),
    }
}

#[tactic(auto, using(turn_lines::proofs::Fitting::step_fits))]
/// What a rule asked is answered, and `None` at its end. A part that is made has this number.
fn answered(
    alloc: Global,
    asked: Asked,
    number: u32,
    keeper: &mut Keeper,
    elements: Elements,
) -> Result<Option<Asked>, Fail> {
    let Asked { state, turn } = asked;
    match turn {
        Turn::Visit => goes_on(told(alloc, state, Answer::Done)),
        Turn::Seq(value) => told_sought(alloc, state, seq_of(alloc, value, elements)),
        Turn::Need(id) => goes_on(told_value(alloc, state, needed(alloc, id))),
        Turn::Apply { function, args } => {
            let answer = answer_of(alloc, function, ProperList { items: args });
            goes_on(told_value(alloc, state, answer))
        }
        Turn::Make { kind: _, term } => {
            keeper.keep(number, Kept { term });
            goes_on(told_made(alloc, state, CellId::of(number)))
        }
        Turn::Give(_) => ended(state),
        Turn::Throw(_) => ended(state),
    }
}

/// Runs a rule to its end. What it asked is written down, and a part that it made is kept.
pub(crate) fn run(
    alloc: Global,
    state: RuleState,
    record: &mut Record,
    keeper: &mut Keeper,
    elements: Elements,
) -> Result<(), Fail>
    requires { Fits (wait_of state.state) Answer.Begin }
{
    record.turn_over();
    let mut asked = told(alloc, state, Answer::Begin)?;
    for _ in 0..2000 {
        if let Err(why) = record.note(&asked.turn) {
            let_go(asked);
            return Err(full(why));
        }
        match answered(alloc, asked, record.made(), keeper, elements)? {
            None => return Ok(()),
            Some(next) => asked = next,
        }
    }
    let_go(asked);
    Err(Fail::from("no end"))
}
