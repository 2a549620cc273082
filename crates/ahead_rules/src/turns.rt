//! `begin`, `begin_word` and `turn`.
ghost use Rattle.std.specs.Prelude.{◌≡◌, ◌<◌, IfOk, IsTrue};
ghost use Rattle.seq_plan.specs.Plan.{begun};
ghost use Rattle.seq_plan.specs.Turns.{told};
ghost use Rattle.seq_turns.specs.Seen.{seen};
ghost use Rattle.seq_turns.specs.Turning.{Fits, Takes, TakesTurn};
ghost use Rattle.seq_values.specs.Plain.{plain, plains};
ghost use Rattle.seq_values.specs.WellFormed.{is_well_formed, are_well_formed};
ghost use Rattle.seq_values.specs.WellFormedTerms.{is_well_formed_term};
ghost use Rattle.ahead_rows.specs.Table.{ahead_call, ahead_term};
ghost use Rattle.ahead_rules.specs.Left.{running, left, left_seq, left_step, left_value, left_part, wait_of};

use crate::asking::{derefs_answered, derefs_at, derefs_one_answered};
use crate::beginning::on_begin;
use crate::calling::{call_answered, rets_at, rets_made, rets_one_made};
use crate::state::{AtBegin, AtPart, AtSeq, AtStep, AtValue, Called, RuleState, State, Work};
use crate::stepping::{
    first_at, others_at, pmap_calls_made, pmap_drop_made, step_answered, step_at,
};
use crate::taking::{ahead_at, ahead_of_answered, ahead_step, near_at, near_made, seque_made};
use seq_turns::{Next, Proper, Seen, gives, gives_first_before, gives_items_before, seen_of};
use seq_values::{Answer, Builtin, CellId, Term, Turn, Value};
use seq_vector::{NoMemory, PVec};
use std::alloc::Global;

/// The rule of a part's term, by how many elements a chunk of a range or of a vector's seq has. A term that is none of `pmap` or `seque` throws `BadType`. It takes no memory.
pub fn begin(term: Term, chunk: u32) -> RuleState
    requires well { IsTrue (is_well_formed_term term) }
    requires some { 0 < chunk }
    ensures left { left result.state begun ≡ ahead_term chunk term.op (plains term.args) }
    ensures waits { Fits (wait_of result.state) Answer.Begin }
{
    RuleState {
        state: State::Begin(AtBegin::Work(Work { term, chunk })),
    }
}

/// The rule of a call of `pmap` or `seque`, by the number of processors. Another word throws `Arity`. It takes no memory.
pub fn begin_word(word: Builtin, args: PVec<Value>, processors: u32) -> RuleState
    requires { IsTrue (are_well_formed args) }
    ensures left { left result.state begun ≡ ahead_call processors word (plains args) }
    ensures waits { Fits (wait_of result.state) Answer.Begin }
{
    RuleState {
        state: State::Begin(AtBegin::Call(Called {
            word,
            args,
            processors,
        })),
    }
}

fn on_seq(alloc: Global, next: AtSeq, what: Seen) -> Result<Next<State>, NoMemory>
    ensures { IfOk result (λ r. Takes running (left_seq next (seen what)) r) }
{
    match next {
        AtSeq::Rets { function, chunk } => rets_at(alloc, function, chunk, what),
        AtSeq::Step {
            element,
            others,
            values,
        } => step_at(alloc, element, others, values, what),
        AtSeq::Derefs { chunk } => derefs_at(alloc, chunk, what),
        AtSeq::First { stepping } => first_at(alloc, stepping, what),
        AtSeq::Others { first, stepping } => others_at(alloc, first, stepping, what),
        AtSeq::Ahead { count, left } => Ok(ahead_at(count, left, what)),
        AtSeq::Near { ahead } => near_at(alloc, ahead, what),
    }
}

fn on_step(alloc: Global, next: AtStep) -> Result<Next<State>, NoMemory>
    ensures { IfOk result (λ r. Takes running (left_step next) r) }
{
    match next {
        AtStep::Ahead { count, place } => ahead_step(alloc, count, place),
    }
}

fn on_value(alloc: Global, next: AtValue, value: Proper) -> Result<Next<State>, NoMemory>
    ensures { IfOk result (λ r. Takes running (left_value next (plain value.value)) r) }
{
    match next {
        AtValue::Step { others, further } => step_answered(alloc, others, further, value),
        AtValue::Derefs { chunk, rest } => derefs_answered(alloc, chunk, rest, value),
        AtValue::DerefsOne { rest } => derefs_one_answered(alloc, rest, value),
        AtValue::Call => Ok(call_answered(value)),
        AtValue::AheadOf => ahead_of_answered(value),
    }
}

fn on_part(alloc: Global, next: AtPart, id: CellId) -> Result<Next<State>, NoMemory>
    ensures { IfOk result (λ r. Takes running (left_part next id) r) }
{
    match next {
        AtPart::PmapRets { processors } => pmap_calls_made(alloc, processors, id),
        AtPart::PmapDrop { rets } => pmap_drop_made(alloc, rets, id),
        AtPart::Seque { source } => seque_made(alloc, source, id),
        AtPart::Rets {
            function,
            chunk,
            rest,
        } => rets_made(alloc, function, chunk, rest, id),
        AtPart::RetsOne { function, rest } => rets_one_made(alloc, function, rest, id),
        AtPart::Near { first, rest } => near_made(alloc, first, rest, id),
        AtPart::Items { items } => gives_items_before(alloc, State::Over, items, id),
        AtPart::One { first } => gives_first_before(alloc, State::Over, first, id),
        AtPart::Cell => Ok(gives(State::Over, Proper::of_part(id))),
    }
}

fn told_seq(alloc: Global, next: AtSeq, value: Value) -> Result<Next<State>, NoMemory>
    requires { Fits (wait_of (State.Seq next)) (Answer.Got value) }
    ensures { IfOk result (λ r. Takes running (left_seq next (plain value)) r) }
{
    let what = seen_of(Proper { value });
    let taken = on_seq(alloc, next, what)?;
    Ok(taken)
}

fn told_value(alloc: Global, next: AtValue, value: Value) -> Result<Next<State>, NoMemory>
    requires { IsTrue (is_well_formed value) }
    ensures { IfOk result (λ r. Takes running (left_value next (plain value)) r) }
{
    on_value(alloc, next, Proper { value })
}

fn next(alloc: Global, state: State, answer: Answer) -> Result<Next<State>, NoMemory>
    requires { Fits (wait_of state) answer }
    ensures { IfOk result (λ r. Takes running (left state (told answer)) r) }
{
    match state {
        State::Begin(next) => match answer {
            Answer::Begin => on_begin(alloc, next),
            Answer::Done => unreachable!(),
            Answer::Got(_) => unreachable!(),
            Answer::Made(_) => unreachable!(),
        },
        State::Seq(next) => match answer {
            Answer::Begin => unreachable!(),
            Answer::Done => unreachable!(),
            Answer::Got(value) => told_seq(alloc, next, value),
            Answer::Made(_) => unreachable!(),
        },
        State::Step(next) => match answer {
            Answer::Begin => unreachable!(),
            Answer::Done => on_step(alloc, next),
            Answer::Got(_) => unreachable!(),
            Answer::Made(_) => unreachable!(),
        },
        State::Value(next) => match answer {
            Answer::Begin => unreachable!(),
            Answer::Done => unreachable!(),
            Answer::Got(value) => told_value(alloc, next, value),
            Answer::Made(_) => unreachable!(),
        },
        State::Part(next) => match answer {
            Answer::Begin => unreachable!(),
            Answer::Done => unreachable!(),
            Answer::Got(_) => unreachable!(),
            Answer::Made(id) => on_part(alloc, next, id),
        },
        State::Over => match answer {
            Answer::Begin => unreachable!(),
            Answer::Done => unreachable!(),
            Answer::Got(_) => unreachable!(),
            Answer::Made(_) => unreachable!(),
        },
    }
}

/// The next turn, and where the rule stands then. The answer has to fit the last turn. Want of memory ends the rule.
pub fn turn(alloc: Global, state: RuleState, answer: Answer) -> Result<(RuleState, Turn), NoMemory>
    requires { Fits (wait_of state.state) answer }
    ensures { IfOk result (λ r. TakesTurn running (left state.state (told answer)) r.0.state r.1) }
{
    let Next { state, turn } = next(alloc, state.state, answer)?;
    Ok((RuleState { state }, turn))
}
