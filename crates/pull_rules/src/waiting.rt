//! Stages in the midst of an input: what they came to, and how they go on with an answer.
ghost use Rattle.std.specs.Prelude.{ℕ, List, IfOk, false};
ghost use Rattle.pull_rules.specs.Reducing.{Flows, left_waiting, waiting_for, waiting_stages};
ghost use Rattle.seq_plan.specs.Turns.{told};
ghost use Rattle.seq_turns.specs.Turning.{Fits, a_seq, a_value};
ghost use Rattle.seq_values.specs.Model as M;
ghost use Rattle.seq_values.specs.Plain.{plain};
ghost use Rattle.xf_stages.specs.Left.{Course, Goes, at_rest, left_call, left_seq, left_step, left_out};
ghost use Rattle.xf_stages.specs.declared.state.StageTurn.TheVariants as T;

use crate::flow::{Flowed, Waiting};
use seq_turns::{Next, Proper, ProperList, seen_of};
use seq_values::{Answer, Turn, Value};
use seq_vector::NoMemory;
use std::alloc::Global;
use xf_stages::{AtCall, AtOut, AtSeq, AtStep, StageTurn};

/// What a turn of stages is.
#[tactic(auto, using(crate::proofs::Flowing::flows_out, crate::proofs::Flowing::flows_throw, crate::proofs::Flowing::flows_rest))]
pub(crate) fn flowed(turn: StageTurn) -> Flowed
    ensures { (stages : List (M.Value ℕ)) (course : Course) → Goes stages course turn → Flows stages course result }
{
    match turn {
        StageTurn::Apply {
            waiting,
            function,
            args,
        } => asks_call(waiting, function, args),
        StageTurn::Seq { waiting, value } => asks_seq(waiting, value),
        StageTurn::Visit { waiting } => asks_step(waiting),
        StageTurn::Out { waiting, item } => Flowed::Out { waiting, item },
        StageTurn::Throw(why) => Flowed::Throw(why),
        StageTurn::Rest(stages) => Flowed::Rest(stages),
    }
}

#[tactic(auto, using(crate::proofs::Flowing::flows_call))]
fn asks_call(waiting: AtCall, function: Proper, args: ProperList) -> Flowed
    ensures { (stages : List (M.Value ℕ)) (course : Course) → Goes stages course (T.Apply waiting function args) → Flows stages course result }
{
    Flowed::Asks(Next {
        state: Waiting::Call(waiting),
        turn: Turn::Apply {
            function: function.value,
            args: args.items,
        },
    })
}

#[tactic(auto, using(crate::proofs::Flowing::flows_seq))]
fn asks_seq(waiting: AtSeq, value: Proper) -> Flowed
    ensures { (stages : List (M.Value ℕ)) (course : Course) → Goes stages course (T.Seq waiting value) → Flows stages course result }
{
    Flowed::Asks(Next {
        state: Waiting::Seq(waiting),
        turn: Turn::Seq(value.value),
    })
}

#[tactic(auto, using(crate::proofs::Flowing::flows_step))]
fn asks_step(waiting: AtStep) -> Flowed
    ensures { (stages : List (M.Value ℕ)) (course : Course) → Goes stages course (T.Visit waiting) → Flows stages course result }
{
    Flowed::Asks(Next {
        state: Waiting::Step(waiting),
        turn: Turn::Visit,
    })
}

fn call_answered(alloc: Global, waiting: AtCall, value: Value) -> Result<Flowed, NoMemory>
    requires { Fits a_value (Answer.Got value) }
    ensures { IfOk result (Flows (at_rest waiting.flow) (left_call waiting (plain value))) }
{
    let turn = waiting.answered(alloc, Proper { value })?;
    Ok(flowed(turn))
}

fn seq_found(alloc: Global, waiting: AtSeq, value: Value) -> Result<Flowed, NoMemory>
    requires { Fits a_seq (Answer.Got value) }
    ensures { IfOk result (Flows (at_rest waiting.flow) (left_seq waiting (plain value))) }
{
    let what = seen_of(Proper { value });
    let turn = waiting.found(alloc, what)?;
    Ok(flowed(turn))
}

fn step_taken(alloc: Global, waiting: AtStep) -> Result<Flowed, NoMemory>
    ensures { IfOk result (Flows (at_rest waiting.flow) (left_step waiting)) }
{
    let turn = waiting.visited(alloc)?;
    Ok(flowed(turn))
}

/// An output was gathered.
pub(crate) fn output_passed(alloc: Global, waiting: AtOut) -> Result<Flowed, NoMemory>
    ensures { IfOk result (Flows (at_rest waiting.flow) (left_out waiting false)) }
{
    let turn = waiting.passed(alloc, false)?;
    Ok(flowed(turn))
}

impl Waiting {
    /// Goes on with the answer.
    pub(crate) fn resumed(self, alloc: Global, answer: Answer) -> Result<Flowed, NoMemory>
        requires { Fits (waiting_for self) answer }
        ensures { IfOk result (Flows (waiting_stages self) (left_waiting self (told answer))) }
    {
        match self {
            Waiting::Call(waiting) => match answer {
                Answer::Begin => unreachable!(),
                Answer::Done => unreachable!(),
                Answer::Got(value) => call_answered(alloc, waiting, value),
                Answer::Made(_) => unreachable!(),
            },
            Waiting::Seq(waiting) => match answer {
                Answer::Begin => unreachable!(),
                Answer::Done => unreachable!(),
                Answer::Got(value) => seq_found(alloc, waiting, value),
                Answer::Made(_) => unreachable!(),
            },
            Waiting::Step(waiting) => match answer {
                Answer::Begin => unreachable!(),
                Answer::Done => step_taken(alloc, waiting),
                Answer::Got(_) => unreachable!(),
                Answer::Made(_) => unreachable!(),
            },
        }
    }
}
