//! `begin`, `begin_word` and `turn`.
ghost use Rattle.std.specs.Prelude.{◌≡◌, ◌<◌, IfOk, IsTrue};
ghost use Rattle.lazy_rules.specs.Left.{left, left_begin, left_seq, left_step, left_value, left_part, wait_of, lazily_run, Takes};
ghost use Rattle.lazy_rules.specs.Words.{is_lazy_word};
ghost use Rattle.lazy_rows.specs.Table.{lazy_term, walk_call};
ghost use Rattle.seq_plan.specs.Plan.{seq, begun};
ghost use Rattle.seq_plan.specs.Turns.{told};
ghost use Rattle.seq_turns.specs.Seen.{seen};
ghost use Rattle.seq_turns.specs.Turning.{Fits, TakesTurn};
ghost use Rattle.seq_values.specs.Plain.{plain, plains};
ghost use Rattle.seq_values.specs.WellFormed.{is_well_formed, are_well_formed};
ghost use Rattle.seq_values.specs.WellFormedTerms.{is_well_formed_term};

use crate::applying::{apply_at, element_answer, mapcat_made};
use crate::beginning::work_begins;
use crate::concatenating::concat_at;
use crate::cycling::{cycle_again_at, cycle_at, next_answer, repeat_made};
use crate::dropping::{drop_at, drop_step, take_at};
use crate::grouping::{parts_at, parts_next_at, parts_step};
use crate::made_terms::first_then;
use crate::mapping_all::gathered;
use crate::sifting::chunk_answer;
use crate::state::{AtBegin, AtPart, AtSeq, AtStep, AtValue, Call, RuleState, State, Work};
use crate::ways::{gives, seeks};
use crate::words::call_begins;
use seq_turns::{
    Next, Proper, Seen, Sought, gives_first_before, gives_items_before, gives_list_before, seek,
    seen_of,
};
use seq_values::{Answer, Builtin, CellId, Term, Turn, Value};
use seq_vector::{NoMemory, PVec};
use std::alloc::Global;

/// The rule of a part's term, by how many elements a chunk of a range or of a vector's seq has.
pub fn begin(term: Term, chunk: u32) -> RuleState
    requires well { IsTrue (is_well_formed_term term) }
    requires positive { 0 < chunk }
    ensures left { left result.state begun ≡ lazy_term chunk term.op (plains term.args) }
    ensures waits { Fits (wait_of result.state) Answer.Begin }
{
    RuleState {
        state: State::Begin(AtBegin::Work(Work { term, chunk })),
    }
}

/// The rule of a call of a word of a lazy operation.
pub fn begin_word(word: Builtin, args: PVec<Value>) -> RuleState
    requires lazy { IsTrue (is_lazy_word word) }
    requires well { IsTrue (are_well_formed args) }
    ensures left { left result.state begun ≡ walk_call word (plains args) }
    ensures waits { Fits (wait_of result.state) Answer.Begin }
{
    RuleState {
        state: State::Begin(AtBegin::Call(Call { word, args })),
    }
}

/// Takes a `seq`, and goes on at once where it is there.
pub(crate) fn start(alloc: Global, next: AtSeq, value: Proper) -> Result<Next<State>, NoMemory>
    ensures { IfOk result (λ r. Takes (seq (plain value.value) (λ s. left_seq next s)) r) }
{
    match seek(value) {
        Sought::Now(what) => on_seq(alloc, next, what),
        Sought::Ask(value) => Ok(seeks(next, value)),
    }
}

fn on_begin(alloc: Global, next: AtBegin) -> Result<Next<State>, NoMemory>
    ensures { IfOk result (λ r. Takes (left_begin next) r) }
{
    match next {
        AtBegin::Work(work) => work_begins(alloc, work),
        AtBegin::Call(call) => call_begins(alloc, call),
    }
}

fn on_seq(alloc: Global, next: AtSeq, what: Seen) -> Result<Next<State>, NoMemory>
    ensures { IfOk result (λ r. Takes (left_seq next (seen what)) r) }
{
    match next {
        AtSeq::Apply(applying) => apply_at(alloc, applying, what),
        AtSeq::MapAll(gathering) => gathered(alloc, gathering, what),
        AtSeq::Take { left } => take_at(alloc, left, what),
        AtSeq::Drop { count } => drop_at(alloc, count, what),
        AtSeq::Concat(collections) => concat_at(alloc, collections, what),
        AtSeq::Cycle { whole } => cycle_at(alloc, whole, what),
        AtSeq::CycleAgain { whole } => cycle_again_at(alloc, whole, what),
        AtSeq::Parts(group) => Ok(parts_at(group, what)),
        AtSeq::PartsNext { group, rest } => parts_next_at(alloc, group, rest, what),
    }
}

fn on_step(alloc: Global, next: AtStep) -> Result<Next<State>, NoMemory>
    ensures { IfOk result (λ r. Takes (left_step next) r) }
{
    match next {
        AtStep::Drop { count, place } => drop_step(alloc, count, place),
        AtStep::Parts { group, place } => parts_step(alloc, group, place),
    }
}

fn on_value(alloc: Global, next: AtValue, answer: Proper) -> Result<Next<State>, NoMemory>
    ensures { IfOk result (λ r. Takes (left_value next (plain answer.value)) r) }
{
    match next {
        AtValue::Element { applying, place } => element_answer(alloc, applying, place, answer),
        AtValue::Chunk(sifting) => chunk_answer(alloc, sifting, answer),
        AtValue::MapAll(term) => Ok(first_then(answer, term)),
        AtValue::Next { function } => next_answer(alloc, function, answer),
    }
}

fn on_part(alloc: Global, next: AtPart, id: CellId) -> Result<Next<State>, NoMemory>
    ensures { IfOk result (λ r. Takes (left_part next id) r) }
{
    match next {
        AtPart::Items(items) => gives_items_before(alloc, State::Over, items, id),
        AtPart::One(first) => gives_first_before(alloc, State::Over, first, id),
        AtPart::List(members) => gives_list_before(alloc, State::Over, members, id),
        AtPart::Cell => Ok(gives(Proper::of_part(id))),
        AtPart::Mapcat(answer) => mapcat_made(alloc, answer, id),
        AtPart::TakeOf { count } => repeat_made(alloc, count, id),
    }
}

fn told_seq(alloc: Global, next: AtSeq, value: Value) -> Result<Next<State>, NoMemory>
    requires { Fits (wait_of (State.Seq next)) (Answer.Got value) }
    ensures { IfOk result (λ r. Takes (left_seq next (plain value)) r) }
{
    let what = seen_of(Proper { value });
    on_seq(alloc, next, what)
}

fn told_value(alloc: Global, next: AtValue, value: Value) -> Result<Next<State>, NoMemory>
    requires { IsTrue (is_well_formed value) }
    ensures { IfOk result (λ r. Takes (left_value next (plain value)) r) }
{
    on_value(alloc, next, Proper { value })
}

fn next(alloc: Global, state: State, answer: Answer) -> Result<Next<State>, NoMemory>
    requires { Fits (wait_of state) answer }
    ensures { IfOk result (λ r. Takes (left state (told answer)) r) }
{
    match state {
        State::Begin(next) => match answer {
            Answer::Begin => on_begin(alloc, next),
            Answer::Done => unreachable!(),
            Answer::Got(_) => unreachable!(),
            Answer::Made(_) => unreachable!(),
        },
        State::Seq(next) => match answer {
            Answer::Begin => unreachable!(),
            Answer::Done => unreachable!(),
            Answer::Got(value) => told_seq(alloc, next, value),
            Answer::Made(_) => unreachable!(),
        },
        State::Step(next) => match answer {
            Answer::Begin => unreachable!(),
            Answer::Done => on_step(alloc, next),
            Answer::Got(_) => unreachable!(),
            Answer::Made(_) => unreachable!(),
        },
        State::Value(next) => match answer {
            Answer::Begin => unreachable!(),
            Answer::Done => unreachable!(),
            Answer::Got(value) => told_value(alloc, next, value),
            Answer::Made(_) => unreachable!(),
        },
        State::Part(next) => match answer {
            Answer::Begin => unreachable!(),
            Answer::Done => unreachable!(),
            Answer::Got(_) => unreachable!(),
            Answer::Made(id) => on_part(alloc, next, id),
        },
        State::Over => match answer {
            Answer::Begin => unreachable!(),
            Answer::Done => unreachable!(),
            Answer::Got(_) => unreachable!(),
            Answer::Made(_) => unreachable!(),
        },
    }
}

/// The next turn, and where the rule stands then. The answer has to fit the last turn.
pub fn turn(alloc: Global, state: RuleState, answer: Answer) -> Result<(RuleState, Turn), NoMemory>
    requires { Fits (wait_of state.state) answer }
    ensures { IfOk result (λ r. TakesTurn lazily_run (left state.state (told answer)) r.0.state r.1) }
{
    let Next { state, turn } = next(alloc, state.state, answer)?;
    Ok((RuleState { state }, turn))
}
