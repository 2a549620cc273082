//! `begin`, `begin_word` and `turn`.
ghost use Rattle.std.specs.Prelude.{◌≡◌, IfOk, IsTrue};
ghost use Rattle.pull_rules.specs.Left.{left, left_begin, left_seq, left_step, left_value, left_stages, left_part, wait_of, stages_wait, pulling, Takes};
ghost use Rattle.pull_rules.specs.Reducing.{reduction_waits, waiting_for};
ghost use Rattle.pull_rules.specs.Words.{is_stage_word};
ghost use Rattle.pull_rules.specs.declared.state.AtStages.TheVariants as G;
ghost use Rattle.seq_plan.specs.Plan.{begun};
ghost use Rattle.seq_plan.specs.Turns.{told};
ghost use Rattle.seq_turns.specs.Seen.{seen};
ghost use Rattle.seq_turns.specs.Turning.{Fits, TakesTurn};
ghost use Rattle.seq_values.specs.Plain.{plain, plains};
ghost use Rattle.seq_values.specs.WellFormed.{is_well_formed, are_well_formed};
ghost use Rattle.seq_values.specs.WellFormedTerms.{is_well_formed_term};
ghost use Rattle.seq_values.specs.declared.words.Op.TheVariants as O;
ghost use Rattle.stage_rows.specs.Table.{pull_term, stage_call};

use crate::ending::pull_made;
use crate::flow::{Gathering, Reduction};
use crate::pulling::{ends_goes, pull_goes, pull_seen, pull_step, work_begins};
use crate::state::{
    AtBegin, AtPart, AtSeq, AtStages, AtStep, AtValue, Call, Midway, RuleState, State, Work,
};
use crate::transducing::{complete_goes, transduce_goes, transduce_over};
use crate::ways::gives;
use crate::words::call_begins;
use seq_turns::{Next, Proper, Seen, seen_of};
use seq_values::{Answer, Builtin, CellId, Term, Turn, Value};
use seq_vector::{NoMemory, PVec};
use std::alloc::Global;

/// The rule of the term of a pull, which ends once it has so many outputs. It takes no memory.
pub fn begin(term: Term, enough: u32) -> RuleState
    requires pulls { term.op ≡ O.Pull }
    requires well { IsTrue (is_well_formed_term term) }
    ensures left { left result.state begun ≡ pull_term enough (plains term.args) }
    ensures waits { Fits (wait_of result.state) Answer.Begin }
{
    RuleState {
        state: State::Begin(AtBegin::Work(Work { term, enough })),
    }
}

/// The rule of a call of a word that runs stages: `transduce`, `sequence`, and `into` where it has a transducer. It takes no memory: the arguments are kept, and looked at at the first turn.
pub fn begin_word(word: Builtin, args: PVec<Value>) -> RuleState
    requires stages { IsTrue (is_stage_word word) }
    requires well { IsTrue (are_well_formed args) }
    ensures left { left result.state begun ≡ stage_call word (plains args) }
    ensures waits { Fits (wait_of result.state) Answer.Begin }
{
    RuleState {
        state: State::Begin(AtBegin::Call(Call { word, args })),
    }
}

fn on_begin(alloc: Global, next: AtBegin) -> Result<Next<State>, NoMemory>
    ensures { IfOk result (λ r. Takes (left_begin next) r) }
{
    match next {
        AtBegin::Work(work) => work_begins(alloc, work),
        AtBegin::Call(call) => call_begins(alloc, call),
    }
}

fn on_seq(alloc: Global, next: AtSeq, what: Seen) -> Result<Next<State>, NoMemory>
    ensures { IfOk result (λ r. Takes (left_seq next (seen what)) r) }
{
    match next {
        AtSeq::Pull(pulling) => pull_seen(alloc, pulling, what),
    }
}

fn on_step(alloc: Global, next: AtStep) -> Result<Next<State>, NoMemory>
    ensures { IfOk result (λ r. Takes (left_step next) r) }
{
    match next {
        AtStep::Pull { pulling, place } => pull_step(alloc, pulling, place),
    }
}

fn on_value(alloc: Global, next: AtValue, answer: Proper) -> Result<Next<State>, NoMemory>
    ensures { IfOk result (λ r. Takes (left_value next (plain answer.value)) r) }
{
    match next {
        AtValue::First {
            stages,
            function,
            source,
        } => transduce_over(alloc, stages, function, answer, source),
        AtValue::Answer => Ok(gives(answer)),
    }
}

#[tactic(auto, using(crate::proofs::TransduceTurns::over_goes))]
fn transduce_told(
    alloc: Global,
    reduction: Reduction,
    answer: Answer,
) -> Result<Next<State>, NoMemory>
    requires { Fits (reduction_waits reduction) answer }
    ensures { IfOk result (λ r. Takes (left_stages (G.Transduce reduction) (told answer)) r) }
{
    let turn = reduction.turn(alloc, answer)?;
    let next = transduce_goes(alloc, turn)?;
    Ok(next)
}

#[tactic(auto, using(crate::proofs::TransduceTurns::complete_goes))]
fn complete_told(
    alloc: Global,
    reduction: Reduction,
    answer: Answer,
) -> Result<Next<State>, NoMemory>
    requires { Fits (reduction_waits reduction) answer }
    ensures { IfOk result (λ r. Takes (left_stages (G.Complete reduction) (told answer)) r) }
{
    let turn = reduction.turn(alloc, answer)?;
    let next = complete_goes(alloc, turn)?;
    Ok(next)
}

#[tactic(auto, using(crate::proofs::PullTurns::midway_through, crate::proofs::PullTurns::midway_goes))]
fn pull_told(alloc: Global, midway: Midway, answer: Answer) -> Result<Next<State>, NoMemory>
    requires { Fits (waiting_for midway.gathering.waiting) answer }
    ensures { IfOk result (λ r. Takes (left_stages (G.Pull midway) (told answer)) r) }
{
    let Midway {
        gathering,
        pull,
        rest,
    } = midway;
    let turn = gathering.turn(alloc, answer)?;
    let next = pull_goes(alloc, turn, pull, rest)?;
    Ok(next)
}

#[tactic(auto, using(crate::proofs::PullTurns::end_goes))]
fn end_told(alloc: Global, gathering: Gathering, answer: Answer) -> Result<Next<State>, NoMemory>
    requires { Fits (waiting_for gathering.waiting) answer }
    ensures { IfOk result (λ r. Takes (left_stages (G.PullEnd gathering) (told answer)) r) }
{
    let turn = gathering.turn(alloc, answer)?;
    let next = ends_goes(alloc, turn)?;
    Ok(next)
}

fn on_stages(alloc: Global, next: AtStages, answer: Answer) -> Result<Next<State>, NoMemory>
    requires { Fits (stages_wait next) answer }
    ensures { IfOk result (λ r. Takes (left_stages next (told answer)) r) }
{
    match next {
        AtStages::Transduce(reduction) => transduce_told(alloc, reduction, answer),
        AtStages::Complete(reduction) => complete_told(alloc, reduction, answer),
        AtStages::Pull(midway) => pull_told(alloc, midway, answer),
        AtStages::PullEnd(gathering) => end_told(alloc, gathering, answer),
    }
}

fn on_part(alloc: Global, next: AtPart, id: CellId) -> Result<Next<State>, NoMemory>
    ensures { IfOk result (λ r. Takes (left_part next id) r) }
{
    match next {
        AtPart::Cell => Ok(gives(Proper::of_part(id))),
        AtPart::Pulled(outputs) => pull_made(alloc, outputs, id),
    }
}

fn told_seq(alloc: Global, next: AtSeq, value: Value) -> Result<Next<State>, NoMemory>
    requires { Fits (wait_of (State.Seq next)) (Answer.Got value) }
    ensures { IfOk result (λ r. Takes (left_seq next (plain value)) r) }
{
    let what = seen_of(Proper { value });
    on_seq(alloc, next, what)
}

fn told_value(alloc: Global, next: AtValue, value: Value) -> Result<Next<State>, NoMemory>
    requires { IsTrue (is_well_formed value) }
    ensures { IfOk result (λ r. Takes (left_value next (plain value)) r) }
{
    on_value(alloc, next, Proper { value })
}

fn next(alloc: Global, state: State, answer: Answer) -> Result<Next<State>, NoMemory>
    requires { Fits (wait_of state) answer }
    ensures { IfOk result (λ r. Takes (left state (told answer)) r) }
{
    match state {
        State::Begin(next) => match answer {
            Answer::Begin => on_begin(alloc, next),
            Answer::Done => unreachable!(),
            Answer::Got(_) => unreachable!(),
            Answer::Made(_) => unreachable!(),
        },
        State::Seq(next) => match answer {
            Answer::Begin => unreachable!(),
            Answer::Done => unreachable!(),
            Answer::Got(value) => told_seq(alloc, next, value),
            Answer::Made(_) => unreachable!(),
        },
        State::Step(next) => match answer {
            Answer::Begin => unreachable!(),
            Answer::Done => on_step(alloc, next),
            Answer::Got(_) => unreachable!(),
            Answer::Made(_) => unreachable!(),
        },
        State::Value(next) => match answer {
            Answer::Begin => unreachable!(),
            Answer::Done => unreachable!(),
            Answer::Got(value) => told_value(alloc, next, value),
            Answer::Made(_) => unreachable!(),
        },
        State::Stages(next) => on_stages(alloc, next, answer),
        State::Part(next) => match answer {
            Answer::Begin => unreachable!(),
            Answer::Done => unreachable!(),
            Answer::Got(_) => unreachable!(),
            Answer::Made(id) => on_part(alloc, next, id),
        },
        State::Over => match answer {
            Answer::Begin => unreachable!(),
            Answer::Done => unreachable!(),
            Answer::Got(_) => unreachable!(),
            Answer::Made(_) => unreachable!(),
        },
    }
}

/// The next turn, and where the rule stands then. The answer has to fit the last turn, and `Begin` comes first. It throws exactly what the row throws; want of memory is the only `Err`, and drops the rule.
pub fn turn(alloc: Global, state: RuleState, answer: Answer) -> Result<(RuleState, Turn), NoMemory>
    requires { Fits (wait_of state.state) answer }
    ensures { IfOk result (λ r. TakesTurn pulling (left state.state (told answer)) r.0.state r.1) }
{
    let Next { state, turn } = next(alloc, state.state, answer)?;
    Ok((RuleState { state }, turn))
}
