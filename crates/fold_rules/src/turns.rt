//! `begin`, `begin_word` and `turn`.
ghost use Rattle.std.specs.Prelude.{◌≡◌, IfOk, IsTrue};
ghost use Rattle.fold_rows.specs.Table.{fold_call, fold_term};
ghost use Rattle.fold_rules.specs.Left.{left, left_begin, left_part, left_value, running, wait_of};
ghost use Rattle.fold_rules.specs.Words.{is_fold_word};
ghost use Rattle.seq_plan.specs.Plan.{begun};
ghost use Rattle.seq_plan.specs.Turns.{told};
ghost use Rattle.seq_turns.specs.Turning.{Fits, Takes, TakesTurn};
ghost use Rattle.seq_values.specs.Plain.{plain, plains};
ghost use Rattle.seq_values.specs.WellFormed.{is_well_formed, are_well_formed};
ghost use Rattle.seq_values.specs.WellFormedTerms.{is_well_formed_term};
ghost use Rattle.seq_values.specs.declared.words.Op.TheVariants as O;

use crate::folding::first_folds;
use crate::pending::{answered, combines};
use crate::reducing::{reduces_through, reduction_told};
use crate::state::{AtBegin, AtPart, AtValue, Call, RuleState, State, Work};
use crate::terms::work_begins;
use crate::words::call_begins;
use seq_turns::{Next, Proper};
use seq_values::{Answer, Builtin, CellId, Term, Turn, Value};
use seq_vector::{NoMemory, PVec};
use std::alloc::Global;

/// The rule of the term of a fold. It takes no memory.
pub fn begin(term: Term) -> RuleState
    requires folds { term.op ≡ O.Fold }
    requires well { IsTrue (is_well_formed_term term) }
    ensures left { left result.state begun ≡ fold_term (plains term.args) }
    ensures waits { Fits (wait_of result.state) Answer.Begin }
{
    RuleState {
        state: State::Begin(AtBegin::Work(Work { term })),
    }
}

/// The rule of a call of a word that folds or reduces: `r/fold`, `reduce`, and `into` without a transducer. It takes no memory: the arguments are kept, and looked at at the first turn.
pub fn begin_word(word: Builtin, args: PVec<Value>) -> RuleState
    requires folds { IsTrue (is_fold_word word) }
    requires well { IsTrue (are_well_formed args) }
    ensures left { left result.state begun ≡ fold_call word (plains args) }
    ensures waits { Fits (wait_of result.state) Answer.Begin }
{
    RuleState {
        state: State::Begin(AtBegin::Call(Call { word, args })),
    }
}

fn on_begin(alloc: Global, next: AtBegin) -> Result<Next<State>, NoMemory>
    ensures { IfOk result (λ r. Takes running (left_begin next) r) }
{
    match next {
        AtBegin::Work(work) => work_begins(alloc, work),
        AtBegin::Call(call) => call_begins(alloc, call),
    }
}

fn on_value(alloc: Global, next: AtValue, value: Value) -> Result<Next<State>, NoMemory>
    requires { IsTrue (is_well_formed value) }
    ensures { IfOk result (λ r. Takes running (left_value next (plain value)) r) }
{
    let answer = Proper { value };
    match next {
        AtValue::First {
            stages,
            function,
            source,
            pending,
        } => reduces_through(alloc, stages, function, answer, source, pending),
        AtValue::Answer(pending) => Ok(answered(answer, pending)),
        AtValue::Right {
            left,
            combine,
            pending,
        } => combines(alloc, left, combine, pending, answer),
    }
}

fn on_part(alloc: Global, next: AtPart, cell: CellId) -> Result<Next<State>, NoMemory>
    ensures { IfOk result (λ r. Takes running (left_part next cell) r) }
{
    match next {
        AtPart::Second {
            fold,
            items,
            pending,
        } => first_folds(alloc, fold, items, pending, cell),
    }
}

fn next(alloc: Global, state: State, answer: Answer) -> Result<Next<State>, NoMemory>
    requires { Fits (wait_of state) answer }
    ensures { IfOk result (λ r. Takes running (left state (told answer)) r) }
{
    match state {
        State::Begin(next) => match answer {
            Answer::Begin => on_begin(alloc, next),
            Answer::Done => unreachable!(),
            Answer::Got(_) => unreachable!(),
            Answer::Made(_) => unreachable!(),
        },
        State::Value(next) => match answer {
            Answer::Begin => unreachable!(),
            Answer::Done => unreachable!(),
            Answer::Got(value) => on_value(alloc, next, value),
            Answer::Made(_) => unreachable!(),
        },
        State::Reduction { reduction, pending } => {
            reduction_told(alloc, reduction, pending, answer)
        }
        State::Part(next) => match answer {
            Answer::Begin => unreachable!(),
            Answer::Done => unreachable!(),
            Answer::Got(_) => unreachable!(),
            Answer::Made(cell) => on_part(alloc, next, cell),
        },
        State::Over => match answer {
            Answer::Begin => unreachable!(),
            Answer::Done => unreachable!(),
            Answer::Got(_) => unreachable!(),
            Answer::Made(_) => unreachable!(),
        },
    }
}

/// The next turn, and where the rule stands then. The answer has to fit the last turn, and `Begin` comes first. It throws exactly what the row throws; want of memory is the only `Err`, and drops the rule.
pub fn turn(alloc: Global, state: RuleState, answer: Answer) -> Result<(RuleState, Turn), NoMemory>
    requires { Fits (wait_of state.state) answer }
    ensures { IfOk result (λ r. TakesTurn running (left state.state (told answer)) r.0.state r.1) }
{
    let Next { state, turn } = next(alloc, state.state, answer)?;
    Ok((RuleState { state }, turn))
}
