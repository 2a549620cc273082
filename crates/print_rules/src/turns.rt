//! `begin` and `turn`.
ghost use Rattle.std.specs.Prelude.{◌≡◌, IfOk, IsTrue};
ghost use Rattle.print_rules.specs.Left.{elements_from, left, prints, resolved, wait_of, Takes};
ghost use Rattle.seq_meaning.specs.Prints.{print_rule};
ghost use Rattle.seq_plan.specs.Plan.{begun};
ghost use Rattle.seq_plan.specs.Turns.{told};
ghost use Rattle.seq_turns.specs.Turning.{Fits, IsSeq, TakesTurn};
ghost use Rattle.seq_values.specs.Model as M;
ghost use Rattle.seq_values.specs.Plain.{plain};
ghost use Rattle.seq_values.specs.WellFormed.{is_well_formed};

use crate::opening::{elements_at, print_value};
use crate::state::{Printing, RuleState, State};
use seq_turns::{Next, Proper, seen_of, visits};
use seq_values::{Answer, Turn, Value};
use seq_vector::NoMemory;
use std::alloc::Global;

/// The rule that realises a value and gives its text. It takes no memory.
pub fn begin(value: Value) -> RuleState
    requires { IsTrue (is_well_formed value) }
    ensures left { left result.state begun ≡ print_rule (plain value) }
    ensures waits { Fits (wait_of result.state) Answer.Begin }
{
    RuleState {
        state: State::Begin(Proper { value }),
    }
}

/// The own step of the whole value.
fn on_begin(alloc: Global, value: Proper) -> Next<State>
    ensures { Takes (print_rule (plain value.value)) result }
{
    visits(State::Step {
        value,
        printing: Printing::new(alloc),
    })
}

/// The answer of a `seq`.
fn told_seq(
    alloc: Global,
    after: bool,
    printing: Printing,
    value: Value,
) -> Result<Next<State>, NoMemory>
    requires found { IsSeq (plain value) }
    requires well { IsTrue (is_well_formed value) }
    ensures { IfOk result (λ r. Takes (elements_from (M.text printing.text) after (plain value) (resolved printing)) r) }
{
    let what = seen_of(Proper { value });
    let next = elements_at(alloc, after, what, printing)?;
    Ok(next)
}

fn next(alloc: Global, state: State, answer: Answer) -> Result<Next<State>, NoMemory>
    requires { Fits (wait_of state) answer }
    ensures { IfOk result (λ r. Takes (left state (told answer)) r) }
{
    match state {
        State::Begin(value) => match answer {
            Answer::Begin => Ok(on_begin(alloc, value)),
            Answer::Done => unreachable!(),
            Answer::Got(_) => unreachable!(),
            Answer::Made(_) => unreachable!(),
        },
        State::Seq { after, printing } => match answer {
            Answer::Begin => unreachable!(),
            Answer::Done => unreachable!(),
            Answer::Got(value) => told_seq(alloc, after, printing, value),
            Answer::Made(_) => unreachable!(),
        },
        State::Step { value, printing } => match answer {
            Answer::Begin => unreachable!(),
            Answer::Done => print_value(alloc, value, printing),
            Answer::Got(_) => unreachable!(),
            Answer::Made(_) => unreachable!(),
        },
        State::Over => match answer {
            Answer::Begin => unreachable!(),
            Answer::Done => unreachable!(),
            Answer::Got(_) => unreachable!(),
            Answer::Made(_) => unreachable!(),
        },
    }
}

/// The next turn, and where the rule stands then. The answer has to fit the last turn, and `Begin` comes first. It gives exactly the text of the row of printing; want of memory is the only `Err`, and drops the rule with the text so far.
pub fn turn(alloc: Global, state: RuleState, answer: Answer) -> Result<(RuleState, Turn), NoMemory>
    requires { Fits (wait_of state.state) answer }
    ensures { IfOk result (λ r. TakesTurn prints (left state.state (told answer)) r.0.state r.1) }
{
    let Next { state, turn } = next(alloc, state.state, answer)?;
    Ok((RuleState { state }, turn))
}
