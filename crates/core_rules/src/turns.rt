//! `begin_word`, `begin_call` and `turn`.
ghost use Rattle.std.specs.Prelude.{◌≡◌, IfOk, IsTrue};
ghost use Rattle.core_rows.specs.Table.{core_call, core_function};
ghost use Rattle.core_rules.specs.Left.{core_runs, left, left_begin, left_value, wait_of, Takes};
ghost use Rattle.seq_plan.specs.Plan.{begun};
ghost use Rattle.seq_plan.specs.Turns.{told};
ghost use Rattle.seq_turns.specs.Turning.{Fits, TakesTurn};
ghost use Rattle.seq_values.specs.Plain.{plain, plains};
ghost use Rattle.seq_values.specs.WellFormed.{is_well_formed_function, are_well_formed};

use crate::applying::{
    complement_answer, complement_called, completing_called, constantly_called, monoid_called,
    partial_called,
};
use crate::composing::{comp_called, compose_answer};
use crate::state::{AtBegin, AtValue, RuleState, State};
use crate::ways::{ends, refuses};
use crate::words::word_called;
use seq_base::Thrown;
use seq_turns::{Next, Proper, ProperList};
use seq_values::{Answer, Builtin, FnValue, Target, Turn, Value};
use seq_vector::{NoMemory, PVec};
use std::alloc::Global;

/// The rule of a call of a word that forces nothing. Another word throws `Arity`. It takes no memory: the arguments are kept, and looked at at the first turn.
pub fn begin_word(word: Builtin, args: PVec<Value>) -> RuleState
    requires { IsTrue (are_well_formed args) }
    ensures left { left result.state begun ≡ core_call word (plains args) }
    ensures waits { Fits (wait_of result.state) Answer.Begin }
{
    RuleState {
        state: State::Begin(AtBegin::Word {
            word,
            args: ProperList { items: args },
        }),
    }
}

/// The rule of a call of a function that such a word makes. Another function throws `BadType`. It takes no memory.
#[tactic(auto, using(seq_values::proofs::WellFormedLemmas::function_bound))]
pub fn begin_call(function: FnValue, args: PVec<Value>) -> RuleState
    requires function { IsTrue (is_well_formed_function function) }
    requires args { IsTrue (are_well_formed args) }
    ensures left { left result.state begun ≡ core_function function.target (plains function.bound) (plains args) }
    ensures waits { Fits (wait_of result.state) Answer.Begin }
{
    let FnValue { target, bound, .. } = function;
    RuleState {
        state: State::Begin(AtBegin::Function {
            target,
            bound: ProperList { items: bound },
            args: ProperList { items: args },
        }),
    }
}

/// A call of a function begins.
fn function_called(
    alloc: Global,
    target: Target,
    bound: ProperList,
    args: ProperList,
) -> Result<Next<State>, NoMemory>
    ensures { IfOk result (λ r. Takes (core_function target (plains bound.items) (plains args.items)) r) }
{
    match target {
        Target::Partial => partial_called(alloc, bound, args),
        Target::Comp => comp_called(alloc, bound, args),
        Target::Complement => complement_called(bound, args),
        Target::Constantly => constantly_called(bound, args),
        Target::Completing => completing_called(bound, args),
        Target::Monoid => monoid_called(bound, args),
        Target::Builtin(_) => Ok(refuses(bound, args, Thrown::BadType)),
        Target::User(_) => Ok(refuses(bound, args, Thrown::BadType)),
        Target::Xf(_) => Ok(refuses(bound, args, Thrown::BadType)),
        Target::Folder(_) => Ok(refuses(bound, args, Thrown::BadType)),
    }
}

fn on_begin(alloc: Global, next: AtBegin) -> Result<Next<State>, NoMemory>
    ensures { IfOk result (λ r. Takes (left_begin next) r) }
{
    match next {
        AtBegin::Word { word, args } => word_called(alloc, word, args),
        AtBegin::Function {
            target,
            bound,
            args,
        } => function_called(alloc, target, bound, args),
    }
}

fn on_value(alloc: Global, next: AtValue, answer: Proper) -> Result<Next<State>, NoMemory>
    ensures { IfOk result (λ r. Takes (left_value next (plain answer.value)) r) }
{
    match next {
        AtValue::Answer => Ok(ends(answer)),
        AtValue::Not => Ok(complement_answer(answer)),
        AtValue::Compose(earlier) => compose_answer(alloc, earlier, answer),
    }
}

fn told_value(alloc: Global, next: AtValue, value: Value) -> Result<Next<State>, NoMemory>
    requires { Fits (wait_of (State.Value next)) (Answer.Got value) }
    ensures { IfOk result (λ r. Takes (left_value next (plain value)) r) }
{
    on_value(alloc, next, Proper { value })
}

fn next(alloc: Global, state: State, answer: Answer) -> Result<Next<State>, NoMemory>
    requires { Fits (wait_of state) answer }
    ensures { IfOk result (λ r. Takes (left state (told answer)) r) }
{
    match state {
        State::Begin(next) => match answer {
            Answer::Begin => on_begin(alloc, next),
            Answer::Done => unreachable!(),
            Answer::Got(_) => unreachable!(),
            Answer::Made(_) => unreachable!(),
        },
        State::Value(next) => match answer {
            Answer::Begin => unreachable!(),
            Answer::Done => unreachable!(),
            Answer::Got(value) => told_value(alloc, next, value),
            Answer::Made(_) => unreachable!(),
        },
        State::Over => match answer {
            Answer::Begin => unreachable!(),
            Answer::Done => unreachable!(),
            Answer::Got(_) => unreachable!(),
            Answer::Made(_) => unreachable!(),
        },
    }
}

/// The next turn, and where the rule stands then. The answer has to fit the last turn, and `Begin` comes first. Want of memory is the only `Err`, and drops the rule.
pub fn turn(alloc: Global, state: RuleState, answer: Answer) -> Result<(RuleState, Turn), NoMemory>
    requires { Fits (wait_of state.state) answer }
    ensures { IfOk result (λ r. TakesTurn core_runs (left state.state (told answer)) r.0.state r.1) }
{
    let Next { state, turn } = next(alloc, state.state, answer)?;
    Ok((RuleState { state }, turn))
}
