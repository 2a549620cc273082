//! The turns of the rules of each crate.
ghost use Rattle.std.specs.Prelude.{◌≡◌, IfOk};
ghost use Rattle.ahead_rules.specs.Left as ahead;
ghost use Rattle.core_rules.specs.Left as core_left;
ghost use Rattle.eval_rules.specs.Left.{language_runs, left, wait_of, reducer_left};
ghost use Rattle.fold_rules.specs.Left as fold;
ghost use Rattle.lazy_rules.specs.Left as lazy;
ghost use Rattle.print_rules.specs.Left as print;
ghost use Rattle.pull_rules.specs.Left as stage;
ghost use Rattle.seq_plan.specs.Plan.{begun};
ghost use Rattle.seq_plan.specs.Turns.{told};
ghost use Rattle.seq_turns.specs.Turning.{Fits, Takes, to_begin};
ghost use Rattle.walk_rules.specs.Left as walk;

use crate::state::{LanguageRule, Reducer, State};
use reducer_values::reducer_call;
use seq_turns::{Next, gives_made};
use seq_values::{Answer, Turn};
use seq_vector::NoMemory;
use std::alloc::Global;

/// The rule stands here after its turn.
fn at(state: State, turn: Turn) -> Next<LanguageRule>
    ensures { result ≡ record { state = record { state = state }; turn = turn } }
{
    Next {
        state: LanguageRule { state },
        turn,
    }
}

#[tactic(auto, using(crate::proofs::Lifting::core_takes))]
fn core_next(
    alloc: Global,
    rule: core_rules::RuleState,
    answer: Answer,
) -> Result<Next<LanguageRule>, NoMemory>
    requires { Fits (core_left.wait_of rule.state) answer }
    ensures { IfOk result (λ n. Takes language_runs (core_left.left rule.state (told answer)) n) }
{
    let (rule, turn) = core_rules::turn(alloc, rule, answer)?;
    Ok(at(State::Core(rule), turn))
}

#[tactic(auto, using(crate::proofs::Lifting::walk_takes))]
fn walk_next(
    alloc: Global,
    rule: walk_rules::RuleState,
    answer: Answer,
) -> Result<Next<LanguageRule>, NoMemory>
    requires { Fits (walk.wait_of rule.state) answer }
    ensures { IfOk result (λ n. Takes language_runs (walk.left rule.state (told answer)) n) }
{
    let (rule, turn) = walk_rules::turn(alloc, rule, answer)?;
    Ok(at(State::Walk(rule), turn))
}

#[tactic(auto, using(crate::proofs::Lifting::lazy_takes))]
fn lazy_next(
    alloc: Global,
    rule: lazy_rules::RuleState,
    answer: Answer,
) -> Result<Next<LanguageRule>, NoMemory>
    requires { Fits (lazy.wait_of rule.state) answer }
    ensures { IfOk result (λ n. Takes language_runs (lazy.left rule.state (told answer)) n) }
{
    let (rule, turn) = lazy_rules::turn(alloc, rule, answer)?;
    Ok(at(State::Lazy(rule), turn))
}

#[tactic(auto, using(crate::proofs::Lifting::stage_takes))]
fn stage_next(
    alloc: Global,
    rule: pull_rules::RuleState,
    answer: Answer,
) -> Result<Next<LanguageRule>, NoMemory>
    requires { Fits (stage.wait_of rule.state) answer }
    ensures { IfOk result (λ n. Takes language_runs (stage.left rule.state (told answer)) n) }
{
    let (rule, turn) = pull_rules::turn(alloc, rule, answer)?;
    Ok(at(State::Stage(rule), turn))
}

#[tactic(auto, using(crate::proofs::Lifting::ahead_takes))]
fn ahead_next(
    alloc: Global,
    rule: ahead_rules::RuleState,
    answer: Answer,
) -> Result<Next<LanguageRule>, NoMemory>
    requires { Fits (ahead.wait_of rule.state) answer }
    ensures { IfOk result (λ n. Takes language_runs (ahead.left rule.state (told answer)) n) }
{
    let (rule, turn) = ahead_rules::turn(alloc, rule, answer)?;
    Ok(at(State::Ahead(rule), turn))
}

#[tactic(auto, using(crate::proofs::Lifting::fold_takes))]
fn fold_next(
    alloc: Global,
    rule: fold_rules::RuleState,
    answer: Answer,
) -> Result<Next<LanguageRule>, NoMemory>
    requires { Fits (fold.wait_of rule.state) answer }
    ensures { IfOk result (λ n. Takes language_runs (fold.left rule.state (told answer)) n) }
{
    let (rule, turn) = fold_rules::turn(alloc, rule, answer)?;
    Ok(at(State::Fold(rule), turn))
}

#[tactic(auto, using(crate::proofs::Lifting::print_takes))]
fn print_next(
    alloc: Global,
    rule: print_rules::RuleState,
    answer: Answer,
) -> Result<Next<LanguageRule>, NoMemory>
    requires { Fits (print.wait_of rule.state) answer }
    ensures { IfOk result (λ n. Takes language_runs (print.left rule.state (told answer)) n) }
{
    let (rule, turn) = print_rules::turn(alloc, rule, answer)?;
    Ok(at(State::Print(rule), turn))
}

/// What a word of reducers makes is given, or why it makes nothing is thrown.
fn reducer_made(rule: Reducer) -> Next<LanguageRule>
    ensures { Takes language_runs (reducer_left rule begun) result }
{
    let Reducer { word, args } = rule;
    let over = LanguageRule { state: State::Over };
    gives_made(over, reducer_call(word, args))
}

fn reducer_next(rule: Reducer, answer: Answer) -> Next<LanguageRule>
    requires { Fits to_begin answer }
    ensures { Takes language_runs (reducer_left rule (told answer)) result }
{
    match answer {
        Answer::Begin => reducer_made(rule),
        Answer::Done => unreachable!(),
        Answer::Got(_) => unreachable!(),
        Answer::Made(_) => unreachable!(),
    }
}

/// The next turn of a rule that is told what it waits for.
pub(crate) fn next_of(
    alloc: Global,
    state: State,
    answer: Answer,
) -> Result<Next<LanguageRule>, NoMemory>
    requires { Fits (wait_of state) answer }
    ensures { IfOk result (λ n. Takes language_runs (left state (told answer)) n) }
{
    match state {
        State::Core(rule) => core_next(alloc, rule, answer),
        State::Walk(rule) => walk_next(alloc, rule, answer),
        State::Lazy(rule) => lazy_next(alloc, rule, answer),
        State::Stage(rule) => stage_next(alloc, rule, answer),
        State::Ahead(rule) => ahead_next(alloc, rule, answer),
        State::Fold(rule) => fold_next(alloc, rule, answer),
        State::Print(rule) => print_next(alloc, rule, answer),
        State::Reducer(rule) => Ok(reducer_next(rule, answer)),
        State::Over => unreachable!(),
    }
}
