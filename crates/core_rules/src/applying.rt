//! Calls of the functions that words make: `partial`, `complement`, `constantly`, `completing` and `r/monoid`.
//! https://clojure.org/reference/transducers, https://clojure.org/reference/reducers
ghost use Rattle.std.specs.Prelude.{◌≡◌, ◌+◌, ◌<◌, ◌≤◌, [], ◌∷◌, ◌++◌, drop, length, true, false, IfOk};
ghost use Rattle.core_rows.specs.Table.{completing_call, core_function, monoid_call};
ghost use Rattle.core_rules.specs.Left.{left_value, Takes, IsNoneOrTwo};
ghost use Rattle.core_rules.specs.declared.state.AtValue.TheVariants as V;
ghost use Rattle.seq_base.specs.declared.thrown.Thrown.TheVariants.{Overflow};
ghost use Rattle.seq_plan.specs.Plan.{throw};
ghost use Rattle.seq_values.specs.Plain.{plain, plains};
ghost use Rattle.seq_values.specs.declared.words.Target.TheVariants as T;

use crate::joining::{and_from, let_go};
use crate::state::{AtValue, State};
use crate::ways::{asks_call, ends, ends_truth, refuses, without};
use seq_base::Thrown;
use seq_turns::{Gathered, Next, Proper, ProperList, is_truthy};
use seq_vector::NoMemory;
use std::alloc::Global;

/// The bound arguments after the first one, and then those of the call.
fn all_arguments(
    alloc: Global,
    bound: &ProperList,
    args: &ProperList,
) -> Result<ProperList, NoMemory>
    requires some { 1 ≤ length bound.now.items }
    requires few { length bound.now.items + length args.now.items ≤ 4294967296 }
    ensures { IfOk result (λ all. all.items ≡ drop 1 bound.now.items ++ args.now.items) }
{
    let none = Gathered::with_room(alloc, bound.len() - 1 + args.len())?;
    let first = and_from(none, bound, 1)?;
    let all = and_from(first, args, 0)?;
    let listed = all.listed(alloc)?;
    Ok(listed)
}

/// Whether there are more than a list of arguments may have, without the function.
fn are_too_many(bound: &ProperList, args: &ProperList) -> bool
    ensures more { result ≡ true → 4294967296 < length bound.now.items + length args.now.items }
    ensures few { result ≡ false → length bound.now.items + length args.now.items ≤ 4294967296 }
{
    bound.len() as u128 + args.len() as u128 > 4294967296
}

/// More arguments than a list may have.
fn too_many(function: Proper, bound: ProperList, args: ProperList) -> Next<State>
    ensures { Takes (throw Overflow) result }
{
    let_go(function);
    refuses(bound, args, Thrown::Overflow)
}

fn partial_on(
    alloc: Global,
    function: Proper,
    bound: ProperList,
    args: ProperList,
) -> Result<Next<State>, NoMemory>
    requires { bound.items ≡ function.value ∷ drop 1 bound.items }
    ensures { IfOk result (λ r. Takes (core_function T.Partial (plains bound.items) (plains args.items)) r) }
{
    if are_too_many(&bound, &args) {
        return Ok(too_many(function, bound, args));
    }
    let all = all_arguments(alloc, &bound, &args)?;
    let next = asks_call(AtValue::Answer, function, all);
    Ok(without(next, bound, args))
}

/// `partial`: the function is called with the bound arguments and then those of the call.
pub(crate) fn partial_called(
    alloc: Global,
    bound: ProperList,
    args: ProperList,
) -> Result<Next<State>, NoMemory>
    ensures { IfOk result (λ r. Takes (core_function T.Partial (plains bound.items) (plains args.items)) r) }
{
    let first = bound.get(0)?;
    match first {
        None => Ok(refuses(bound, args, Thrown::BadType)),
        Some(function) => partial_on(alloc, function, bound, args),
    }
}

/// `complement`: the answer of the function is turned round.
pub(crate) fn complement_called(
    bound: ProperList,
    args: ProperList,
) -> Result<Next<State>, NoMemory>
    ensures { IfOk result (λ r. Takes (core_function T.Complement (plains bound.items) (plains args.items)) r) }
{
    let only = bound.only()?;
    match only {
        None => Ok(refuses(bound, args, Thrown::BadType)),
        Some(function) => {
            let_go(bound);
            Ok(asks_call(AtValue::Not, function, args))
        }
    }
}

/// The function of `complement` has answered.
pub(crate) fn complement_answer(answer: Proper) -> Next<State>
    ensures { Takes (left_value V.Not (plain answer.value)) result }
{
    let holds = is_truthy(&answer.value);
    let_go(answer);
    ends_truth(!holds)
}

/// `constantly`: the value that is bound.
pub(crate) fn constantly_called(
    bound: ProperList,
    args: ProperList,
) -> Result<Next<State>, NoMemory>
    ensures { IfOk result (λ r. Takes (core_function T.Constantly (plains bound.items) (plains args.items)) r) }
{
    let only = bound.only()?;
    match only {
        None => Ok(refuses(bound, args, Thrown::BadType)),
        Some(value) => {
            let next = ends(value);
            Ok(without(next, bound, args))
        }
    }
}

/// A function of `completing` without arguments, or with two: the first bound function is called with them.
fn stepped(bound: ProperList, args: ProperList) -> Result<Next<State>, NoMemory>
    requires { IsNoneOrTwo args.items }
    ensures { IfOk result (λ r. Takes (completing_call (plains bound.items) (plains args.items)) r) }
{
    let first = bound.get(0)?;
    match first {
        None => Ok(refuses(bound, args, Thrown::Arity)),
        Some(function) => {
            let_go(bound);
            Ok(asks_call(AtValue::Answer, function, args))
        }
    }
}

/// A function of `completing` with one argument, where two functions are bound: the second one is called with it.
fn completed_by(bound: ProperList, args: ProperList) -> Result<Next<State>, NoMemory>
    requires one { length args.items ≡ 1 }
    requires more { ¬ (length bound.items ≡ 1) }
    ensures { IfOk result (λ r. Takes (completing_call (plains bound.items) (plains args.items)) r) }
{
    let both = bound.pair()?;
    match both {
        None => Ok(refuses(bound, args, Thrown::Arity)),
        Some((step, complete)) => {
            let_go(step);
            let_go(bound);
            Ok(asks_call(AtValue::Answer, complete, args))
        }
    }
}

/// A function of `completing` with one argument, which is the answer where only one function is bound.
fn completed(bound: ProperList, args: ProperList) -> Result<Next<State>, NoMemory>
    requires { length args.items ≡ 1 }
    ensures { IfOk result (λ r. Takes (completing_call (plains bound.items) (plains args.items)) r) }
{
    if bound.len() != 1 {
        return completed_by(bound, args);
    }
    let only = args.at(0)?;
    let next = ends(only);
    Ok(without(next, bound, args))
}

/// `completing`
pub(crate) fn completing_called(
    bound: ProperList,
    args: ProperList,
) -> Result<Next<State>, NoMemory>
    ensures { IfOk result (λ r. Takes (completing_call (plains bound.items) (plains args.items)) r) }
{
    let count = args.len();
    if count == 1 {
        return completed(bound, args);
    }
    if count == 0 || count == 2 {
        return stepped(bound, args);
    }
    Ok(refuses(bound, args, Thrown::Arity))
}

/// `r/monoid` of these two functions: without arguments the second is called, with two the first.
fn monoid_of(
    operation: Proper,
    unit: Proper,
    bound: ProperList,
    args: ProperList,
) -> Result<Next<State>, NoMemory>
    requires { bound.items ≡ operation.value ∷ unit.value ∷ [] }
    ensures { IfOk result (λ r. Takes (monoid_call (plains bound.items) (plains args.items)) r) }
{
    let count = args.len();
    if count == 0 {
        let_go(operation);
        let_go(bound);
        return Ok(asks_call(AtValue::Answer, unit, args));
    }
    let_go(unit);
    if count == 2 {
        let_go(bound);
        return Ok(asks_call(AtValue::Answer, operation, args));
    }
    let_go(operation);
    Ok(refuses(bound, args, Thrown::Arity))
}

/// `r/monoid`
pub(crate) fn monoid_called(bound: ProperList, args: ProperList) -> Result<Next<State>, NoMemory>
    ensures { IfOk result (λ r. Takes (monoid_call (plains bound.items) (plains args.items)) r) }
{
    let both = bound.pair()?;
    match both {
        None => Ok(refuses(bound, args, Thrown::Arity)),
        Some((operation, unit)) => monoid_of(operation, unit, bound, args),
    }
}
