//! How each word and each term begins.
ghost use Rattle.std.specs.Prelude.{None, Some, ◌≢◌, ◌≡◌, ℕ, ◌<◌, [], ◌∷◌, length, IfOk, true};
ghost use Rattle.seq_base.specs.declared.thrown.Thrown.TheVariants.{BadType};
ghost use Rattle.seq_plan.specs.Plan.{throw};
ghost use Rattle.seq_plan.specs.WellFormed.{sights};
ghost use Rattle.seq_turns.specs.Turning.{Takes};
ghost use Rattle.seq_values.specs.Model as M;
ghost use Rattle.seq_values.specs.Plain.{plain, plains};
ghost use Rattle.seq_values.specs.WellFormedTerms.{takes};
ghost use Rattle.seq_values.specs.declared.words.Op.TheVariants as O;
ghost use Rattle.ahead_rows.specs.Table.{pmap_call, seque_call, rets_rule, derefs_rule, ahead_term, ahead_call};
ghost use Rattle.ahead_rules.specs.Left.{running, left_begin};
ghost use Rattle.seq_turns.specs.Arguments.{part_in};
ghost use Rattle.ahead_rules.specs.declared.state.AtBegin.TheVariants as B;

use crate::asking::derefs_at;
use crate::calling::{call_begins, rets_at};
use crate::handing::{as_number, as_part};
use crate::state::{AtBegin, AtSeq, Called, Sequence, Size, State, Work};
use crate::stepping::{pmap_begins, step_begins};
use crate::taking::{ahead_begins, ahead_of_begins, near_begins, seque_begins};
use seq_base::Thrown;
use seq_turns::{Next, Proper, ProperList, Sought, seek, seeks, throws};
use seq_values::{Builtin, CellId, Op, Term};
use seq_vector::NoMemory;
use std::alloc::Global;

/// The only argument, where there is one.
fn only_argument(args: &ProperList) -> Result<Proper, NoMemory>
    requires { length args.now.items ≡ 1 }
    ensures { IfOk result (λ v. args.now.items ≡ v.value ∷ []) }
{
    let value = args.only()?;
    match value {
        Some(value) => Ok(value),
        None => unreachable!(),
    }
}

/// The two arguments, where there are two.
fn two_arguments(args: &ProperList) -> Result<(Proper, Proper), NoMemory>
    requires { length args.now.items ≡ 2 }
    ensures { IfOk result (λ p. args.now.items ≡ p.0.value ∷ p.1.value ∷ []) }
{
    let pair = args.pair()?;
    match pair {
        Some(pair) => Ok(pair),
        None => unreachable!(),
    }
}

/// The same, and the arguments are let go.
fn without(next: Next<State>, args: ProperList) -> Next<State>
    ensures { result ≡ next }
{
    next
}

/// A rule begins.
pub(crate) fn on_begin(alloc: Global, next: AtBegin) -> Result<Next<State>, NoMemory>
    ensures { IfOk result (λ r. Takes running (left_begin next) r) }
{
    match next {
        AtBegin::Work(work) => on_work(alloc, work),
        AtBegin::Call(called) => on_call(alloc, called),
    }
}

#[tactic(auto, using(seq_values::proofs::WellFormedLemmas::term_args, crate::proofs::Fits::term_fits))]
fn on_work(alloc: Global, work: Work) -> Result<Next<State>, NoMemory>
    ensures { IfOk result (λ r. Takes running (left_begin (B.Work work)) r) }
{
    let Work { term, chunk } = work;
    let Term { op, args } = term;
    let args = ProperList { items: args };
    let next = term_begins(alloc, op, &args, chunk)?;
    Ok(without(next, args))
}

fn on_call(alloc: Global, called: Called) -> Result<Next<State>, NoMemory>
    ensures { IfOk result (λ r. Takes running (left_begin (B.Call called)) r) }
{
    let Called {
        word,
        args,
        processors,
    } = called;
    let args = ProperList { items: args };
    let next = word_begins(alloc, word, &args, processors)?;
    Ok(without(next, args))
}

fn word_begins(
    alloc: Global,
    word: Builtin,
    args: &ProperList,
    processors: u32,
) -> Result<Next<State>, NoMemory>
    ensures { IfOk result (λ r. Takes running (ahead_call processors word (plains args.now.items)) r) }
{
    match word {
        Builtin::Pmap => pmap(alloc, args, processors),
        Builtin::Seque => seque(alloc, args),
        _ => Ok(throws(State::Over, Thrown::Arity)),
    }
}

/// `pmap`
fn pmap(alloc: Global, args: &ProperList, processors: u32) -> Result<Next<State>, NoMemory>
    ensures { IfOk result (λ r. Takes running (pmap_call processors (plains args.now.items)) r) }
{
    let pair = args.pair()?;
    match pair {
        None => Ok(throws(State::Over, Thrown::Arity)),
        Some(pair) => {
            let next = pmap_begins(alloc, processors, pair.0, pair.1)?;
            Ok(next)
        }
    }
}

/// `seque`
fn seque(alloc: Global, args: &ProperList) -> Result<Next<State>, NoMemory>
    ensures { IfOk result (λ r. Takes running (seque_call (plains args.now.items)) r) }
{
    let pair = args.pair()?;
    match pair {
        None => Ok(throws(State::Over, Thrown::Arity)),
        Some(pair) => {
            let next = seque_of(alloc, pair.0, pair.1)?;
            Ok(next)
        }
    }
}

fn seque_of(alloc: Global, count: Proper, source: Proper) -> Result<Next<State>, NoMemory>
    ensures { IfOk result (λ r. Takes running (seque_call (plain count.value ∷ plain source.value ∷ [])) r) }
{
    let number = as_number(count);
    match number {
        None => Ok(no_number(source)),
        Some(count) => seque_begins(alloc, count, source),
    }
}

/// The number of elements is none.
fn no_number(source: Proper) -> Next<State>
    ensures { Takes running (throw BadType) result }
{
    throws(State::Over, Thrown::BadType)
}

fn term_begins(
    alloc: Global,
    op: Op,
    args: &ProperList,
    chunk: u32,
) -> Result<Next<State>, NoMemory>
    requires some { 0 < chunk }
    requires fit { takes op (sights (M.values (plains args.now.items))) ≡ true }
    ensures { IfOk result (λ r. Takes running (ahead_term chunk op (plains args.now.items)) r) }
{
    match op {
        Op::Rets => rets(alloc, args, chunk),
        Op::Step => step(alloc, args),
        Op::Derefs => derefs(alloc, args, chunk),
        Op::Call => call(alloc, args),
        Op::Ahead => ahead(args),
        Op::AheadOf => ahead_of(args),
        Op::Near => near(alloc, args),
        _ => Ok(throws(State::Over, Thrown::BadType)),
    }
}

#[tactic(auto, using(crate::proofs::Fits::rets_two))]
fn rets(alloc: Global, args: &ProperList, chunk: u32) -> Result<Next<State>, NoMemory>
    requires some { 0 < chunk }
    requires fit { takes O.Rets (sights (M.values (plains args.now.items))) ≡ true }
    ensures { IfOk result (λ r. Takes running (ahead_term chunk O.Rets (plains args.now.items)) r) }
{
    let pair = two_arguments(args)?;
    let next = rets_begins(alloc, pair.0, pair.1, chunk)?;
    Ok(next)
}

/// The `seq` of the collection is taken.
fn rets_begins(
    alloc: Global,
    function: Proper,
    source: Proper,
    chunk: u32,
) -> Result<Next<State>, NoMemory>
    requires { 0 < chunk }
    ensures { IfOk result (λ r. Takes running (rets_rule chunk (plain function.value) (plain source.value)) r) }
{
    let chunk = Size { elements: chunk };
    let sought = seek(source);
    match sought {
        Sought::Now(what) => rets_at(alloc, function, chunk, what),
        Sought::Ask(value) => Ok(seeks(State::Seq(AtSeq::Rets { function, chunk }), value)),
    }
}

#[tactic(auto, using(crate::proofs::Fits::step_four, crate::proofs::Fits::step_others, crate::proofs::Fits::step_values))]
fn step(alloc: Global, args: &ProperList) -> Result<Next<State>, NoMemory>
    requires { takes O.Step (sights (M.values (plains args.now.items))) ≡ true }
    ensures { IfOk result (λ r. (size : ℕ) → Takes running (ahead_term size O.Step (plains args.now.items)) r) }
{
    let element = args.at(0)?;
    let others = args.at(1)?;
    let values = args.at(2)?;
    let further = args.at(3)?;
    let others = Sequence {
        value: others.value,
    };
    let values = Sequence {
        value: values.value,
    };
    let next = step_begins(alloc, element, others, values, further)?;
    Ok(next)
}

#[tactic(auto, using(crate::proofs::Fits::derefs_one))]
fn derefs(alloc: Global, args: &ProperList, chunk: u32) -> Result<Next<State>, NoMemory>
    requires some { 0 < chunk }
    requires fit { takes O.Derefs (sights (M.values (plains args.now.items))) ≡ true }
    ensures { IfOk result (λ r. Takes running (ahead_term chunk O.Derefs (plains args.now.items)) r) }
{
    let source = only_argument(args)?;
    let next = derefs_begins(alloc, source, chunk)?;
    Ok(next)
}

/// The `seq` of the collection is taken.
fn derefs_begins(alloc: Global, source: Proper, chunk: u32) -> Result<Next<State>, NoMemory>
    requires { 0 < chunk }
    ensures { IfOk result (λ r. Takes running (derefs_rule chunk (plain source.value)) r) }
{
    let chunk = Size { elements: chunk };
    let sought = seek(source);
    match sought {
        Sought::Now(what) => derefs_at(alloc, chunk, what),
        Sought::Ask(value) => Ok(seeks(State::Seq(AtSeq::Derefs { chunk }), value)),
    }
}

#[tactic(auto, using(crate::proofs::Fits::call_two))]
fn call(alloc: Global, args: &ProperList) -> Result<Next<State>, NoMemory>
    requires { takes O.Call (sights (M.values (plains args.now.items))) ≡ true }
    ensures { IfOk result (λ r. (size : ℕ) → Takes running (ahead_term size O.Call (plains args.now.items)) r) }
{
    let pair = two_arguments(args)?;
    let next = call_begins(alloc, pair.0, pair.1)?;
    Ok(next)
}

#[tactic(auto, using(crate::proofs::Fits::ahead_two))]
fn ahead(args: &ProperList) -> Result<Next<State>, NoMemory>
    requires { takes O.Ahead (sights (M.values (plains args.now.items))) ≡ true }
    ensures { IfOk result (λ r. (size : ℕ) → Takes running (ahead_term size O.Ahead (plains args.now.items)) r) }
{
    let pair = two_arguments(args)?;
    let next = ahead_counted(pair.0, pair.1)?;
    Ok(next)
}

fn ahead_counted(count: Proper, source: Proper) -> Result<Next<State>, NoMemory>
    ensures { IfOk result (λ r. (size : ℕ) → Takes running (ahead_term size O.Ahead (plain count.value ∷ plain source.value ∷ [])) r) }
{
    let number = as_number(count);
    match number {
        None => Ok(no_number(source)),
        Some(count) => {
            let next = ahead_begins(count, source)?;
            Ok(next)
        }
    }
}

#[tactic(auto, using(crate::proofs::Fits::ahead_of_one))]
fn ahead_of(args: &ProperList) -> Result<Next<State>, NoMemory>
    requires { takes O.AheadOf (sights (M.values (plains args.now.items))) ≡ true }
    ensures { IfOk result (λ r. (size : ℕ) → Takes running (ahead_term size O.AheadOf (plains args.now.items)) r) }
{
    let before = only_argument(args)?;
    Ok(ahead_of_begins(before))
}

#[tactic(auto, using(crate::proofs::Fits::near_two))]
fn near(alloc: Global, args: &ProperList) -> Result<Next<State>, NoMemory>
    requires { takes O.Near (sights (M.values (plains args.now.items))) ≡ true }
    ensures { IfOk result (λ r. (size : ℕ) → Takes running (ahead_term size O.Near (plains args.now.items)) r) }
{
    let pair = two_arguments(args)?;
    let next = near_of(alloc, pair.0, pair.1)?;
    Ok(next)
}

fn near_of(alloc: Global, source: Proper, ahead: Proper) -> Result<Next<State>, NoMemory>
    requires { takes O.Near (sights (M.values (plain source.value ∷ plain ahead.value ∷ []))) ≡ true }
    ensures { IfOk result (λ r. (size : ℕ) → Takes running (ahead_term size O.Near (plain source.value ∷ plain ahead.value ∷ [])) r) }
{
    let id = known_part(ahead);
    let next = near_begins(alloc, source, id)?;
    Ok(next)
}

/// The part that a value is, of which it is known that it is one.
fn known_part(value: Proper) -> CellId
    requires { part_in (plain value.value) ≢ None }
    ensures { part_in (plain value.value) ≡ Some result }
{
    let part = as_part(value);
    match part {
        Some(id) => id,
        None => unreachable!(),
    }
}
