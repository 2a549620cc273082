//! `begin_word` and `turn`.
ghost use Rattle.std.specs.Prelude.{◌≡◌, true, IfOk, IsTrue};
ghost use Rattle.lazy_rows.specs.Table.{walk_call};
ghost use Rattle.seq_plan.specs.Arguments.{of_value};
ghost use Rattle.seq_plan.specs.Plan.{seq, begun};
ghost use Rattle.seq_plan.specs.Turns.{told};
ghost use Rattle.seq_turns.specs.Turning.{Fits, IsSeq, TakesTurn};
ghost use Rattle.seq_values.specs.Plain.{plain, plains};
ghost use Rattle.seq_values.specs.WellFormed.{are_well_formed};
ghost use Rattle.walk_rules.specs.Left.{left, left_once, left_seq, left_step, left_value, wait_of, walking, Takes};
ghost use Rattle.walk_rules.specs.Words.{is_walk_word};

use crate::arguments::only;
use crate::comparing::{begin_equal, pair_step};
use crate::counting::{begin_count, begin_last, count_step, last_step};
use crate::gathering::{begin_apply, begin_reverse, begin_vec, gather_step};
use crate::joining::{begin_conj, begin_cons};
use crate::placing::{begin_nth, nth_step};
use crate::reducing::{begin_into, begin_reduce, first_step, reduce_answer, reduce_step};
use crate::resuming::{on_seq, start};
use crate::searching::{begin_doall, begin_search, doall_step, search_answer, search_step};
use crate::state::{AtSeq, AtStep, AtValue, Called, Once, Quest, RuleState, State};
use crate::ways::{ends, fails};
use seq_base::Thrown;
use seq_turns::{Next, Proper, ProperList, seen_of};
use seq_values::{Answer, Builtin, Turn, Value};
use seq_vector::{NoMemory, PVec};
use std::alloc::Global;

/// Whether the rule of a word is one of these.
pub fn walks(word: Builtin) -> bool
    ensures { result ≡ is_walk_word word }
{
    match word {
        Builtin::Seq => true,
        Builtin::First => true,
        Builtin::Second => true,
        Builtin::Rest => true,
        Builtin::Next => true,
        Builtin::Nth => true,
        Builtin::Last => true,
        Builtin::Count => true,
        Builtin::IsEmpty => true,
        Builtin::Cons => true,
        Builtin::Conj => true,
        Builtin::Vec => true,
        Builtin::Reverse => true,
        Builtin::Doall => true,
        Builtin::IsEvery => true,
        Builtin::Some => true,
        Builtin::Apply => true,
        Builtin::Equal => true,
        Builtin::NotEqual => true,
        Builtin::Reduce => true,
        Builtin::Into => true,
        _ => false,
    }
}

/// The rule of a call of a word that walks. It takes no memory: the arguments are kept, and looked at at the first turn.
pub fn begin_word(word: Builtin, args: PVec<Value>) -> RuleState
    requires walks { is_walk_word word ≡ true }
    requires well { IsTrue (are_well_formed args) }
    ensures left { left result.state begun ≡ walk_call word (plains args) }
    ensures waits { Fits (wait_of result.state) Answer.Begin }
{
    RuleState {
        state: State::Begin(Called {
            word,
            args: ProperList { items: args },
        }),
    }
}

/// A word that takes one seq.
#[tactic(auto, using(crate::proofs::Beginning::of_only, crate::proofs::Beginning::of_others))]
fn begin_once(alloc: Global, once: Once, args: ProperList) -> Result<Next<State>, NoMemory>
    ensures { IfOk result (λ r. Takes (of_value (λ x. seq x (λ s. left_once once s)) (plains args.items)) r) }
{
    match only(args)? {
        Some(whole) => Ok(start(alloc, AtSeq::Once(once), whole)?),
        None => Ok(fails(Thrown::Arity)),
    }
}

fn on_begin(alloc: Global, called: Called) -> Result<Next<State>, NoMemory>
    ensures { IfOk result (λ r. Takes (walk_call called.word (plains called.args.items)) r) }
{
    let args = called.args;
    match called.word {
        Builtin::Seq => begin_once(alloc, Once::Seq, args),
        Builtin::First => begin_once(alloc, Once::First, args),
        Builtin::Second => begin_once(alloc, Once::Second, args),
        Builtin::Rest => begin_once(alloc, Once::Rest, args),
        Builtin::Next => begin_once(alloc, Once::Next, args),
        Builtin::IsEmpty => begin_once(alloc, Once::IsEmpty, args),
        Builtin::Nth => begin_nth(alloc, args),
        Builtin::Last => begin_last(alloc, args),
        Builtin::Count => begin_count(alloc, args),
        Builtin::Cons => begin_cons(alloc, args),
        Builtin::Conj => begin_conj(alloc, args),
        Builtin::Vec => begin_vec(alloc, args),
        Builtin::Reverse => begin_reverse(alloc, args),
        Builtin::Doall => begin_doall(alloc, args),
        Builtin::IsEvery => begin_search(alloc, Quest::Every, args),
        Builtin::Some => begin_search(alloc, Quest::Any, args),
        Builtin::Apply => begin_apply(alloc, args),
        Builtin::Equal => begin_equal(alloc, false, args),
        Builtin::NotEqual => begin_equal(alloc, true, args),
        Builtin::Reduce => begin_reduce(alloc, args),
        Builtin::Into => begin_into(alloc, args),
        _ => unreachable!(),
    }
}

fn on_step(alloc: Global, next: AtStep) -> Result<Next<State>, NoMemory>
    ensures { IfOk result (λ r. Takes (left_step next) r) }
{
    match next {
        AtStep::Nth {
            left,
            default,
            place,
        } => nth_step(alloc, left, default, place),
        AtStep::Last { place } => last_step(alloc, place),
        AtStep::Count { count, place } => count_step(alloc, count, place),
        AtStep::Gather {
            kept,
            purpose,
            place,
        } => gather_step(alloc, kept, purpose, place),
        AtStep::Doall { whole, place } => doall_step(alloc, whole, place),
        AtStep::Search { quest, test, place } => search_step(alloc, quest, test, place),
        AtStep::ReduceFirst { function, place } => first_step(alloc, function, place),
        AtStep::Reduce {
            function,
            answer,
            place,
        } => reduce_step(alloc, function, answer, place),
        AtStep::Pair {
            left,
            right,
            pending,
        } => pair_step(alloc, left, right, pending),
    }
}

fn on_value(alloc: Global, next: AtValue, value: Proper) -> Result<Next<State>, NoMemory>
    ensures { IfOk result (λ r. Takes (left_value next (plain value.value)) r) }
{
    match next {
        AtValue::Answer => Ok(ends(value)),
        AtValue::Search { quest, test, rest } => search_answer(alloc, quest, test, rest, value),
        AtValue::Reduce { function, rest } => reduce_answer(alloc, function, rest, value),
    }
}

fn told_seq(alloc: Global, next: AtSeq, value: Value) -> Result<Next<State>, NoMemory>
    requires { Fits (wait_of (State.Seq next)) (Answer.Got value) }
    ensures { IfOk result (λ r. Takes (left_seq next (plain value)) r) }
{
    let what = seen_of(Proper { value });
    on_seq(alloc, next, what)
}

fn told_value(alloc: Global, next: AtValue, value: Value) -> Result<Next<State>, NoMemory>
    requires { Fits (wait_of (State.Value next)) (Answer.Got value) }
    ensures { IfOk result (λ r. Takes (left_value next (plain value)) r) }
{
    on_value(alloc, next, Proper { value })
}

fn next(alloc: Global, state: State, answer: Answer) -> Result<Next<State>, NoMemory>
    requires { Fits (wait_of state) answer }
    ensures { IfOk result (λ r. Takes (left state (told answer)) r) }
{
    match state {
        State::Begin(called) => match answer {
            Answer::Begin => on_begin(alloc, called),
            Answer::Done => unreachable!(),
            Answer::Got(_) => unreachable!(),
            Answer::Made(_) => unreachable!(),
        },
        State::Seq(next) => match answer {
            Answer::Begin => unreachable!(),
            Answer::Done => unreachable!(),
            Answer::Got(value) => told_seq(alloc, next, value),
            Answer::Made(_) => unreachable!(),
        },
        State::Step(next) => match answer {
            Answer::Begin => unreachable!(),
            Answer::Done => on_step(alloc, next),
            Answer::Got(_) => unreachable!(),
            Answer::Made(_) => unreachable!(),
        },
        State::Value(next) => match answer {
            Answer::Begin => unreachable!(),
            Answer::Done => unreachable!(),
            Answer::Got(value) => told_value(alloc, next, value),
            Answer::Made(_) => unreachable!(),
        },
        State::Over => match answer {
            Answer::Begin => unreachable!(),
            Answer::Done => unreachable!(),
            Answer::Got(_) => unreachable!(),
            Answer::Made(_) => unreachable!(),
        },
    }
}

/// The next turn, and where the rule stands then. The answer has to fit the last turn, and `Begin` comes first. It throws exactly what the row of the word throws; want of memory is the only `Err`, and drops the rule.
pub fn turn(alloc: Global, state: RuleState, answer: Answer) -> Result<(RuleState, Turn), NoMemory>
    requires { Fits (wait_of state.state) answer }
    ensures { IfOk result (λ r. TakesTurn walking (left state.state (told answer)) r.0.state r.1) }
{
    let Next { state, turn } = next(alloc, state.state, answer)?;
    Ok((RuleState { state }, turn))
}
