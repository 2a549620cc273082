//! The terms of lazy operations: how the work of each begins.
ghost use Rattle.std.specs.Prelude.{◌≡◌, ◌<◌, ℕ, true, map, [], ◌∷◌, IfOk};
ghost use Rattle.lazy_rules.specs.Left.{purpose_op, Takes};
ghost use Rattle.lazy_rows.specs.Table.{lazy_term};
ghost use Rattle.lazy_rows.specs.Terms.{take_rule};
ghost use Rattle.seq_base.specs.declared.thrown.Thrown.TheVariants.{BadType};
ghost use Rattle.seq_plan.specs.Plan.{throw};
ghost use Rattle.seq_values.specs.Plain.{plain, plains};
ghost use Rattle.seq_values.specs.WellFormed.{sight_of};
ghost use Rattle.seq_values.specs.WellFormedTerms.{takes};
ghost use Rattle.seq_values.specs.declared.words.Op.TheVariants as O;

use crate::arguments::{Counted, counted_of, only, pair_of};
use crate::concatenating::concat_from;
use crate::cycling::{next_one, repeat_one};
use crate::mapping_all::gather;
use crate::state::{Applying, AtSeq, Group, Keeps, Purpose, State, Work};
use crate::turns::start;
use crate::ways::{gives_nil, let_go, throws};
use seq_base::Thrown;
use seq_turns::{Gathered, Next, ProperList};
use seq_values::{Op, Term};
use seq_vector::NoMemory;
use std::alloc::Global;

#[tactic(auto, using(seq_values::proofs::WellFormedLemmas::term_args, seq_values::proofs::WellFormedLemmas::term_takes))]
/// The work of a term begins.
pub(crate) fn work_begins(alloc: Global, work: Work) -> Result<Next<State>, NoMemory>
    ensures { IfOk result (λ r. Takes (lazy_term work.chunk work.term.op (plains work.term.args)) r) }
{
    let Work { term, chunk } = work;
    let Term { op, args } = term;
    term_begins(alloc, op, ProperList { items: args }, chunk)
}

fn term_begins(alloc: Global, op: Op, args: ProperList, chunk: u32) -> Result<Next<State>, NoMemory>
    requires fit { takes op (map sight_of args.items) ≡ true }
    requires positive { 0 < chunk }
    ensures { IfOk result (λ r. Takes (lazy_term chunk op (plains args.items)) r) }
{
    match op {
        Op::Map => apply_begins(alloc, Purpose::Sift(Keeps::Answers), args, chunk),
        Op::MapN => map_all_begins(alloc, args, chunk),
        Op::Filter => apply_begins(alloc, Purpose::Sift(Keeps::Elements), args, chunk),
        Op::Keep => apply_begins(alloc, Purpose::Sift(Keeps::SomeAnswers), args, chunk),
        Op::Take => take_begins(alloc, args, chunk),
        Op::TakeWhile => apply_begins(alloc, Purpose::TakeWhile, args, chunk),
        Op::Drop => drop_begins(alloc, args, chunk),
        Op::DropWhile => apply_begins(alloc, Purpose::DropWhile, args, chunk),
        Op::Concat => concat_from(alloc, args, 0, chunk),
        Op::Mapcat => apply_begins(alloc, Purpose::Mapcat, args, chunk),
        Op::Next => next_begins(alloc, args, chunk),
        Op::Repeat => repeat_begins(alloc, args, chunk),
        Op::Cycle => cycle_begins(alloc, args, chunk),
        Op::Parts => parts_begins(alloc, args, chunk),
        Op::Pull => Ok(misfit(args)),
        Op::Rets => Ok(misfit(args)),
        Op::Step => Ok(misfit(args)),
        Op::Derefs => Ok(misfit(args)),
        Op::Call => Ok(misfit(args)),
        Op::Ahead => Ok(misfit(args)),
        Op::AheadOf => Ok(misfit(args)),
        Op::Near => Ok(misfit(args)),
        Op::Fold => Ok(misfit(args)),
        Op::Body(_) => Ok(misfit(args)),
    }
}

/// An operation that isn't one of this crate, or arguments that it doesn't take.
fn misfit(args: ProperList) -> Next<State>
    ensures { Takes (throw BadType) result }
{
    let_go(args);
    throws(Thrown::BadType)
}

#[tactic(auto, using(crate::proofs::BeginTurns::apply_misfit))]
fn apply_begins(
    alloc: Global,
    purpose: Purpose,
    args: ProperList,
    chunk: u32,
) -> Result<Next<State>, NoMemory>
    requires { 0 < chunk }
    ensures { IfOk result (λ r. Takes (lazy_term chunk (purpose_op purpose) (plains args.items)) r) }
{
    let pair = pair_of(args)?;
    match pair {
        None => Ok(throws(Thrown::BadType)),
        Some(pair) => {
            let (first, second) = pair;
            start(
                alloc,
                AtSeq::Apply(Applying {
                    purpose,
                    function: first,
                    chunk,
                }),
                second,
            )
        }
    }
}

#[tactic(auto, using(crate::proofs::BeginTurns::map_all_begun, crate::proofs::BeginTurns::some_args))]
/// The chunk size isn't looked at.
fn map_all_begins(alloc: Global, args: ProperList, chunk: u32) -> Result<Next<State>, NoMemory>
    requires { takes O.MapN (map sight_of args.items) ≡ true }
    ensures { IfOk result (λ r. Takes (lazy_term chunk O.MapN (plains args.items)) r) }
{
    let function = args.at(0)?;
    let seqs = Vec::new(alloc);
    let next = gather(alloc, function, seqs, args, 1)?;
    Ok(next)
}

fn take_begins(alloc: Global, args: ProperList, chunk: u32) -> Result<Next<State>, NoMemory>
    ensures { IfOk result (λ r. Takes (lazy_term chunk O.Take (plains args.items)) r) }
{
    let counted = counted_of(args)?;
    match counted {
        None => Ok(throws(Thrown::BadType)),
        Some(counted) => take_counted(alloc, counted),
    }
}

#[tactic(auto, using(crate::proofs::DropTurns::take_none, crate::proofs::DropTurns::take_goes))]
/// The collection isn't touched where nothing is to be taken.
fn take_counted(alloc: Global, counted: Counted) -> Result<Next<State>, NoMemory>
    ensures { IfOk result (λ r. Takes (take_rule counted.count (plain counted.source.value)) r) }
{
    let Counted { count, source } = counted;
    if count <= 0 {
        let_go(source);
        return Ok(gives_nil());
    }
    let next = start(alloc, AtSeq::Take { left: count - 1 }, source)?;
    Ok(next)
}

#[tactic(auto, using(crate::proofs::BeginTurns::drop_misfit, crate::proofs::BeginTurns::drop_begun))]
fn drop_begins(alloc: Global, args: ProperList, chunk: u32) -> Result<Next<State>, NoMemory>
    ensures { IfOk result (λ r. Takes (lazy_term chunk O.Drop (plains args.items)) r) }
{
    let counted = counted_of(args)?;
    match counted {
        None => Ok(throws(Thrown::BadType)),
        Some(counted) => {
            let Counted { count, source } = counted;
            let next = start(alloc, AtSeq::Drop { count }, source)?;
            Ok(next)
        }
    }
}

fn next_begins(alloc: Global, args: ProperList, chunk: u32) -> Result<Next<State>, NoMemory>
    ensures { IfOk result (λ r. Takes (lazy_term chunk O.Next (plains args.items)) r) }
{
    let pair = pair_of(args)?;
    match pair {
        None => Ok(throws(Thrown::BadType)),
        Some(pair) => {
            let (first, second) = pair;
            next_one(alloc, first, second)
        }
    }
}

fn repeat_begins(alloc: Global, args: ProperList, chunk: u32) -> Result<Next<State>, NoMemory>
    ensures { IfOk result (λ r. Takes (lazy_term chunk O.Repeat (plains args.items)) r) }
{
    let value = only(args)?;
    match value {
        None => Ok(throws(Thrown::BadType)),
        Some(value) => repeat_one(alloc, value),
    }
}

fn cycle_begins(alloc: Global, args: ProperList, chunk: u32) -> Result<Next<State>, NoMemory>
    ensures { IfOk result (λ r. Takes (lazy_term chunk O.Cycle (plains args.items)) r) }
{
    let pair = pair_of(args)?;
    match pair {
        None => Ok(throws(Thrown::BadType)),
        Some(pair) => {
            let (first, second) = pair;
            start(alloc, AtSeq::Cycle { whole: first }, second)
        }
    }
}

#[tactic(auto, using(crate::proofs::BeginTurns::parts_misfit, crate::proofs::BeginTurns::parts_begun, crate::proofs::BeginTurns::part_size))]
fn parts_begins(alloc: Global, args: ProperList, chunk: u32) -> Result<Next<State>, NoMemory>
    requires { takes O.Parts (map sight_of args.items) ≡ true }
    ensures { IfOk result (λ r. Takes (lazy_term chunk O.Parts (plains args.items)) r) }
{
    let counted = counted_of(args)?;
    match counted {
        None => Ok(throws(Thrown::BadType)),
        Some(counted) => {
            let Counted { count, source } = counted;
            let group = Group {
                size: count,
                left: count,
                taken: Gathered::none(alloc),
            };
            let next = start(alloc, AtSeq::Parts(group), source)?;
            Ok(next)
        }
    }
}
