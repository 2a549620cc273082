//! The halves that wait until the first ones are folded here.
ghost use Rattle.std.specs.Prelude.{◌≡◌, [], ◌∷◌, ◌++◌, IfOk, MatchOption, option_to_list};
ghost use Rattle.fold_rules.specs.Left.{after, combined, left_value, running};
ghost use Rattle.fold_rules.specs.declared.state.AtValue.TheVariants as V;
ghost use Rattle.seq_plan.specs.Plan.{give};
ghost use Rattle.seq_turns.specs.Turning.{Takes};
ghost use Rattle.seq_values.specs.Plain.{plain};

use crate::state::{AtValue, Half, Pending, State};
use seq_turns::{Next, Proper, ProperList, calls, gives, needs};
use seq_vector::NoMemory;
use std::alloc::Global;

/// The halves that wait without the innermost one, where there is one.
#[derive(Drop)]
struct Taken {
    pending: Pending,
    half: Option<Half>,
}

impl Pending {
    /// No halves. It takes no memory.
    pub(crate) fn none(alloc: Global) -> Pending
        ensures { result.halves.items ≡ [] }
    {
        Pending {
            halves: Vec::new(alloc),
        }
    }

    /// One more half, whose turn comes first.
    pub(crate) fn and(self, half: Half) -> Result<Pending, NoMemory>
        ensures { IfOk result (λ p. p.halves.items ≡ self.halves.items ++ half ∷ []) }
    {
        let mut halves = self.halves;
        match halves.push(half) {
            Ok(()) => Ok(Pending { halves }),
            Err(_) => Err(NoMemory),
        }
    }

    /// The innermost half is taken.
    fn take(self) -> Taken
        ensures halves { self.halves.items ≡ result.pending.halves.items ++ option_to_list result.half }
        ensures none { MatchOption result.half (result.pending.halves.items ≡ []) (λ h. Unit {0}) }
    {
        let mut halves = self.halves;
        let half = halves.pop();
        Taken {
            pending: Pending { halves },
            half,
        }
    }
}

/// A first half is folded, or the whole: the halves that wait go on with its answer.
#[tactic(auto, using(crate::proofs::Pendings::goes_half, crate::proofs::Pendings::goes_last))]
pub(crate) fn answered(answer: Proper, pending: Pending) -> Next<State>
    ensures { Takes running (after pending (plain answer.value)) result }
{
    let Taken { pending, half } = pending.take();
    match half {
        None => gives_last(answer, pending),
        Some(half) => asks_second(half, answer, pending),
    }
}

/// No half waits.
fn gives_last(answer: Proper, pending: Pending) -> Next<State>
    ensures { Takes running (give (plain answer.value)) result }
{
    gives(State::Over, answer)
}

/// The future of the second half is asked.
fn asks_second(half: Half, left: Proper, pending: Pending) -> Next<State>
    ensures { Takes running (combined half.cell (plain half.combine.value) (after pending) (plain left.value)) result }
{
    let Half { cell, combine } = half;
    needs(
        State::Value(AtValue::Right {
            left,
            combine,
            pending,
        }),
        cell,
    )
}

/// Both answers are there.
#[tactic(auto, using(crate::proofs::Pendings::both_called))]
pub(crate) fn combines(
    alloc: Global,
    left: Proper,
    combine: Proper,
    pending: Pending,
    right: Proper,
) -> Result<Next<State>, NoMemory>
    ensures { IfOk result (λ r. Takes running (left_value (V.Right left combine pending) (plain right.value)) r) }
{
    let args = ProperList::two(alloc, left, right)?;
    Ok(calls(State::Value(AtValue::Answer(pending)), combine, args))
}
