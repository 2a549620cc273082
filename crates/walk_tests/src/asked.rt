//! What a rule is told after what it asked for.
ghost use Rattle.std.specs.Prelude.{◌≡◌};
ghost use Rattle.seq_turns.specs.Turning.{Fits, IsSeq, a_seq, a_step, a_value};
ghost use Rattle.seq_values.specs.Plain.{plain};
ghost use Rattle.walk_rules.specs.Left.{wait_of};

use crate::due::Due;
use seq_turns::{Proper, ProperList};
use seq_values::{Answer, Builtin};
use seq_vector::NoMemory;
use std::alloc::Global;
use walk_rules::{RuleState, begin_word, turn, walks};

/// The rule takes its next turn.
fn told(alloc: Global, state: RuleState, answer: Answer) -> Result<Due, NoMemory>
    requires { Fits (wait_of state.state) answer }
{
    let (state, turn) = turn(alloc, state, answer)?;
    Ok(Due { state, turn })
}

/// The rule of a word takes its first turn, if the word is one that walks.
pub(crate) fn begun(
    alloc: Global,
    word: Builtin,
    args: ProperList,
) -> Result<Option<Due>, NoMemory> {
    if !walks(word) {
        return Ok(None);
    }
    let state = begin_word(word, args.items);
    let due = told(alloc, state, Answer::Begin)?;
    Ok(Some(due))
}

/// The own step was taken.
#[tactic(auto, using(crate::proofs::Fitting::step_fits))]
pub(crate) fn stepped(alloc: Global, state: RuleState) -> Result<Due, NoMemory>
    requires { wait_of state.state ≡ a_step }
{
    told(alloc, state, Answer::Done)
}

/// The seq is there.
#[tactic(auto, using(crate::proofs::Fitting::seq_fits))]
pub(crate) fn told_seq(alloc: Global, state: RuleState, value: Proper) -> Result<Due, NoMemory>
    requires waits { wait_of state.state ≡ a_seq }
    requires found { IsSeq (plain value.value) }
{
    told(alloc, state, Answer::Got(value.value))
}

/// The call has its answer.
#[tactic(auto, using(crate::proofs::Fitting::value_fits))]
pub(crate) fn told_value(alloc: Global, state: RuleState, value: Proper) -> Result<Due, NoMemory>
    requires { wait_of state.state ≡ a_value }
{
    told(alloc, state, Answer::Got(value.value))
}
