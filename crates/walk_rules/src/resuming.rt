//! What a rule does with the seq that it waits for.
ghost use Rattle.std.specs.Prelude.{IfOk};
ghost use Rattle.seq_plan.specs.Plan.{seq};
ghost use Rattle.seq_turns.specs.Seen.{seen, rested};
ghost use Rattle.seq_values.specs.Plain.{plain};
ghost use Rattle.walk_rules.specs.Left.{left_seq, Takes};

use crate::comparing::{equal_at, equal_right};
use crate::counting::{count_at, last_at};
use crate::gathering::gather_at;
use crate::joining::conj_at;
use crate::once::once_at;
use crate::placing::{nth_at, place_at};
use crate::reducing::{first_at, reduce_at};
use crate::searching::{doall_at, search_at};
use crate::state::{AtSeq, State};
use crate::ways::asks_seq;
use seq_turns::{Next, Proper, Rest, Seen, Sought, seek, seek_rest};
use seq_vector::NoMemory;
use std::alloc::Global;

/// Takes the `seq` of a value, and goes on at once where it is there.
pub(crate) fn start(alloc: Global, next: AtSeq, value: Proper) -> Result<Next<State>, NoMemory>
    ensures { IfOk result (λ r. Takes (seq (plain value.value) (λ s. left_seq next s)) r) }
{
    match seek(value) {
        Sought::Now(what) => on_seq(alloc, next, what),
        Sought::Ask(value) => Ok(asks_seq(next, value)),
    }
}

/// The same of what comes after an element.
pub(crate) fn resume(alloc: Global, next: AtSeq, rest: Rest) -> Result<Next<State>, NoMemory>
    ensures { IfOk result (λ r. Takes (seq (rested rest) (λ s. left_seq next s)) r) }
{
    match seek_rest(rest) {
        Sought::Now(what) => on_seq(alloc, next, what),
        Sought::Ask(value) => Ok(asks_seq(next, value)),
    }
}

/// The seq is there.
pub(crate) fn on_seq(alloc: Global, next: AtSeq, what: Seen) -> Result<Next<State>, NoMemory>
    ensures { IfOk result (λ r. Takes (left_seq next (seen what)) r) }
{
    match next {
        AtSeq::Once(once) => once_at(alloc, once, what),
        AtSeq::Place { index, default } => place_at(index, default, what),
        AtSeq::Nth { left, default } => nth_at(left, default, what),
        AtSeq::Last { answer } => Ok(last_at(answer, what)),
        AtSeq::Count { count } => count_at(alloc, count, what),
        AtSeq::Conj { args } => conj_at(alloc, args, what),
        AtSeq::Gather { kept, purpose } => gather_at(alloc, kept, purpose, what),
        AtSeq::Doall { whole } => Ok(doall_at(whole, what)),
        AtSeq::Search { quest, test } => Ok(search_at(quest, test, what)),
        AtSeq::ReduceFirst { function } => first_at(function, what),
        AtSeq::Reduce { function, answer } => Ok(reduce_at(function, answer, what)),
        AtSeq::EqualLeft { right, pending } => equal_right(alloc, what, right, pending),
        AtSeq::EqualRight { left, pending } => equal_at(alloc, left, what, pending),
    }
}
