//! What a stage does once its function has answered.
ghost use Rattle.std.specs.Prelude.{◌≡◌, if◌then◌else◌};
ghost use Rattle.seq_base.specs.declared.thrown.Thrown.TheVariants.{BadType};
ghost use Rattle.seq_plan.specs.Nodes.{is_nil as nil_test};
ghost use Rattle.seq_values.specs.Plain.{plain};
ghost use Rattle.xf_stages.specs.Reacting.{Answers, Chooses};
ghost use Rattle.xf_stages.specs.declared.state.Effect.TheVariants as E;
ghost use Rattle.xf_stages.specs.declared.state.Purpose.TheVariants as P;
ghost use Rattle.xf_stages.specs.declared.state.Stage.TheVariants as S;

use crate::state::{Effect, Purpose, Reacted, Stage};
use crate::ways::let_go;
use seq_base::Thrown;
use seq_turns::{Proper, is_truthy};
use seq_values::Value;

/// A stage's function has answered. What the stage kept of the input comes first.
pub(crate) fn on_answer(stage: Stage, kept: Proper, answer: Proper) -> Reacted
    ensures { Answers stage (plain kept.value) (plain answer.value) result }
{
    match stage {
        Stage::Applies { purpose, function } => applied(purpose, function, kept, answer),
        Stage::DropWhile { test, dropping } => tested(test, dropping, kept, answer),
        Stage::Take { count, left } => no_call(Stage::Take { count, left }, kept, answer),
        Stage::Drop { count, left } => no_call(Stage::Drop { count, left }, kept, answer),
        Stage::Cat => no_call(Stage::Cat, kept, answer),
        Stage::PartitionAll(group) => no_call(Stage::PartitionAll(group), kept, answer),
        Stage::ReducerTake { count, left } => {
            no_call(Stage::ReducerTake { count, left }, kept, answer)
        }
    }
}

/// A stage without a function waits for no answer.
fn no_call(stage: Stage, kept: Proper, answer: Proper) -> Reacted
    ensures stage { result.stage ≡ stage }
    ensures effect { result.effect ≡ E.Throws BadType }
{
    let_go(kept);
    let_go(answer);
    Reacted {
        stage,
        effect: Effect::Throws(Thrown::BadType),
    }
}

fn applied(purpose: Purpose, function: Proper, kept: Proper, answer: Proper) -> Reacted
    ensures { Answers (S.Applies purpose function) (plain kept.value) (plain answer.value) result }
{
    let effect = chosen(purpose, kept, answer);
    Reacted {
        stage: Stage::Applies { purpose, function },
        effect,
    }
}

/// What is passed on of the input and the answer.
fn chosen(purpose: Purpose, kept: Proper, answer: Proper) -> Effect
    ensures { Chooses purpose (plain kept.value) (plain answer.value) result }
{
    match purpose {
        Purpose::Map => passes_answer(kept, answer),
        Purpose::Filter => passes_if(is_truthy(&answer.value), kept, answer),
        Purpose::Remove => passes_if(!is_truthy(&answer.value), kept, answer),
        Purpose::Keep => keep_answer(kept, answer),
        Purpose::TakeWhile => passes_while(kept, answer),
        Purpose::Mapcat => passes_elements(kept, answer),
    }
}

fn is_nil(value: &Proper) -> bool
    ensures { result ≡ nil_test (plain value.now.value) }
{
    match &value.value {
        Value::Nil => true,
        _ => false,
    }
}

fn passes_answer(kept: Proper, answer: Proper) -> Effect
    ensures { result ≡ E.Passes answer }
{
    let_go(kept);
    Effect::Passes(answer)
}

fn passes_elements(kept: Proper, answer: Proper) -> Effect
    ensures { result ≡ E.PassesEach answer }
{
    let_go(kept);
    Effect::PassesEach(answer)
}

fn passes_kept(kept: Proper, answer: Proper) -> Effect
    ensures { result ≡ E.Passes kept }
{
    let_go(answer);
    Effect::Passes(kept)
}

fn passes_neither(kept: Proper, answer: Proper) -> Effect
    ensures { result ≡ E.PassesNothing }
{
    let_go(kept);
    let_go(answer);
    Effect::PassesNothing
}

fn ends(kept: Proper, answer: Proper) -> Effect
    ensures { result ≡ E.Done }
{
    let_go(kept);
    let_go(answer);
    Effect::Done
}

/// The input is passed on, or nothing.
fn passes_if(holds: bool, kept: Proper, answer: Proper) -> Effect
    ensures { result ≡ (if holds then E.Passes kept else E.PassesNothing) }
{
    if holds {
        passes_kept(kept, answer)
    } else {
        passes_neither(kept, answer)
    }
}

/// `keep` passes an answer that isn't nil.
fn keep_answer(kept: Proper, answer: Proper) -> Effect
    ensures { Chooses P.Keep (plain kept.value) (plain answer.value) result }
{
    if is_nil(&answer) {
        passes_neither(kept, answer)
    } else {
        passes_answer(kept, answer)
    }
}

/// `take-while` passes the input, or all is done.
fn passes_while(kept: Proper, answer: Proper) -> Effect
    ensures { Chooses P.TakeWhile (plain kept.value) (plain answer.value) result }
{
    if is_truthy(&answer.value) {
        passes_kept(kept, answer)
    } else {
        ends(kept, answer)
    }
}

/// `drop-while` drops the input, or drops no more.
fn tested(test: Proper, dropping: bool, kept: Proper, answer: Proper) -> Reacted
    ensures { Answers (S.DropWhile test dropping) (plain kept.value) (plain answer.value) result }
{
    let drops = is_truthy(&answer.value);
    let effect = passes_if(!drops, kept, answer);
    Reacted {
        stage: Stage::DropWhile {
            test,
            dropping: drops,
        },
        effect,
    }
}
