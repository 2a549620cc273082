//! Stages are driven through their turns, and what they do is written down.
ghost use Rattle.std.specs.Prelude.{◌≡◌, [], Some, None, Ok, Err, IfOk, IfSome};
ghost use Rattle.stage_tests.specs.Following.{Follows, LeadsTo};
ghost use Rattle.xf_stages.specs.Left.{RestsWith, at_rest, stages_in};

use crate::showing::{show_asked, show_call, show_end, show_output, show_thrown};
use crate::world::{answer_of, seq_of};
use seq_base::Thrown;
use seq_turns::{Proper, ProperList, Seen};
use seq_values::Line;
use seq_vector::NoMemory;
use std::alloc::Global;
use xf_stages::{AtCall, AtOut, AtSeq, AtStep, StageTurn, Stages};

/// Lets a value go.
pub(crate) fn let_go<T: Drop>(_value: T) {}

/// There was no memory for an answer.
fn no_turn<T: Drop>(_waiting: T, why: NoMemory) -> Result<StageTurn, NoMemory>
    ensures { result ≡ Err why }
{
    Err(why)
}

/// What a function gives.
fn shown_answer(
    alloc: Global,
    function: &Proper,
    args: ProperList,
    line: &mut Line,
) -> Result<Proper, NoMemory> {
    show_call(&function.value, &args.items, line)?;
    answer_of(alloc, &function.value, args)
}

fn answered(alloc: Global, waiting: AtCall, answer: Proper) -> Result<StageTurn, NoMemory>
    ensures { IfOk result (RestsWith (at_rest waiting.flow)) }
{
    let turn = waiting.answered(alloc, answer)?;
    Ok(turn)
}

fn told_answer(
    alloc: Global,
    waiting: AtCall,
    answer: Result<Proper, NoMemory>,
) -> Result<StageTurn, NoMemory>
    ensures { IfOk result (RestsWith (at_rest waiting.flow)) }
{
    match answer {
        Ok(answer) => answered(alloc, waiting, answer),
        Err(why) => no_turn(waiting, why),
    }
}

/// A call is answered.
fn called(
    alloc: Global,
    waiting: AtCall,
    function: Proper,
    args: ProperList,
    line: &mut Line,
) -> Result<StageTurn, NoMemory>
    ensures { IfOk result (RestsWith (at_rest waiting.flow)) }
{
    let answer = shown_answer(alloc, &function, args, line);
    let_go(function);
    told_answer(alloc, waiting, answer)
}

/// The seq of a value that isn't there at once.
fn shown_seq(alloc: Global, value: &Proper, line: &mut Line) -> Result<Option<Seen>, NoMemory> {
    show_asked(&value.value, line)?;
    seq_of(alloc, &value.value)
}

fn found(alloc: Global, waiting: AtSeq, what: Seen) -> Result<StageTurn, NoMemory>
    ensures { IfOk result (RestsWith (at_rest waiting.flow)) }
{
    let turn = waiting.found(alloc, what)?;
    Ok(turn)
}

/// A value that has no seq throws.
fn no_seq(_waiting: AtSeq) -> Result<StageTurn, NoMemory>
    ensures { result ≡ Ok (StageTurn.Throw Thrown.BadType) }
{
    Ok(StageTurn::Throw(Thrown::BadType))
}

fn told_seq(
    alloc: Global,
    waiting: AtSeq,
    what: Result<Option<Seen>, NoMemory>,
) -> Result<StageTurn, NoMemory>
    ensures { IfOk result (RestsWith (at_rest waiting.flow)) }
{
    match what {
        Ok(Some(what)) => found(alloc, waiting, what),
        Ok(None) => no_seq(waiting),
        Err(why) => no_turn(waiting, why),
    }
}

/// A seq is asked for.
fn sought(
    alloc: Global,
    waiting: AtSeq,
    value: Proper,
    line: &mut Line,
) -> Result<StageTurn, NoMemory>
    ensures { IfOk result (RestsWith (at_rest waiting.flow)) }
{
    let what = shown_seq(alloc, &value, line);
    let_go(value);
    told_seq(alloc, waiting, what)
}

/// The own step is taken.
fn stepped(alloc: Global, waiting: AtStep, line: &mut Line) -> Result<StageTurn, NoMemory>
    ensures { IfOk result (RestsWith (at_rest waiting.flow)) }
{
    line.append(b". ")?;
    let turn = waiting.visited(alloc)?;
    Ok(turn)
}

fn told_passed(alloc: Global, waiting: AtOut, ends: bool) -> Result<StageTurn, NoMemory>
    ensures { IfOk result (RestsWith (at_rest waiting.flow)) }
{
    let turn = waiting.passed(alloc, ends)?;
    Ok(turn)
}

fn told_output(
    alloc: Global,
    waiting: AtOut,
    ends: Result<bool, NoMemory>,
) -> Result<StageTurn, NoMemory>
    ensures { IfOk result (RestsWith (at_rest waiting.flow)) }
{
    match ends {
        Ok(ends) => told_passed(alloc, waiting, ends),
        Err(why) => no_turn(waiting, why),
    }
}

/// What passed the last stage is taken.
fn passed(
    alloc: Global,
    waiting: AtOut,
    item: Proper,
    line: &mut Line,
) -> Result<StageTurn, NoMemory>
    ensures { IfOk result (RestsWith (at_rest waiting.flow)) }
{
    let ends = show_output(&item.value, line);
    let_go(item);
    told_output(alloc, waiting, ends)
}

fn goes_on(turn: &StageTurn) -> bool {
    match turn {
        StageTurn::Apply { .. } => true,
        StageTurn::Seq { .. } => true,
        StageTurn::Visit { .. } => true,
        StageTurn::Out { .. } => true,
        StageTurn::Throw(_) => false,
        StageTurn::Rest(_) => false,
    }
}

/// The turn after one.
fn turned(alloc: Global, turn: StageTurn, line: &mut Line) -> Result<StageTurn, NoMemory>
    ensures { IfOk result (Follows turn) }
{
    match turn {
        StageTurn::Apply {
            waiting,
            function,
            args,
        } => called(alloc, waiting, function, args, line),
        StageTurn::Seq { waiting, value } => sought(alloc, waiting, value, line),
        StageTurn::Visit { waiting } => stepped(alloc, waiting, line),
        StageTurn::Out { waiting, item } => passed(alloc, waiting, item, line),
        StageTurn::Throw(why) => Ok(StageTurn::Throw(why)),
        StageTurn::Rest(stages) => Ok(StageTurn::Rest(stages)),
    }
}

/// The last turn of an input, a collection or a completion.
fn run(alloc: Global, turn: StageTurn, line: &mut Line) -> Result<StageTurn, NoMemory>
    ensures { IfOk result (Follows turn) }
{
    let mut here = turn;
    let mut left = 100u32;
    while left > 0 && goes_on(&here) {
        here = turned(alloc, here, line)?;
        left -= 1;
    }
    Ok(here)
}

/// The stages once all is through, and `None` where one threw.
fn rested(turn: StageTurn, line: &mut Line) -> Result<Option<Stages>, NoMemory>
    ensures { IfOk result (λ x. IfSome x (LeadsTo turn)) }
{
    match turn {
        StageTurn::Rest(stages) => at_end(stages, line),
        StageTurn::Throw(why) => {
            show_thrown(why, line)?;
            Ok(None)
        }
        other => no_end(other, line),
    }
}

fn at_end(stages: Stages, line: &mut Line) -> Result<Option<Stages>, NoMemory>
    ensures { IfOk result (λ x. x ≡ Some stages) }
{
    show_end(stages.is_done(), line)?;
    Ok(Some(stages))
}

fn no_end(turn: StageTurn, line: &mut Line) -> Result<Option<Stages>, NoMemory>
    ensures { IfOk result (λ x. x ≡ None) }
{
    let_go(turn);
    line.append(b"no end")?;
    Ok(None)
}

/// The stages that stand once all is through, and `None` where one threw.
fn driven(alloc: Global, turn: StageTurn, line: &mut Line) -> Result<Option<Stages>, NoMemory>
    ensures { IfOk result (λ x. IfSome x (LeadsTo turn)) }
{
    let last = run(alloc, turn, line)?;
    let after = rested(last, line)?;
    Ok(after)
}

/// An input enters.
pub(crate) fn entered(
    alloc: Global,
    stages: Stages,
    item: Proper,
    line: &mut Line,
) -> Result<Option<Stages>, NoMemory>
    ensures { IfOk result (λ x. IfSome x (λ s. stages_in s ≡ stages_in stages)) }
{
    let turn = stages.enter(alloc, item)?;
    let after = driven(alloc, turn, line)?;
    Ok(after)
}

/// Each element of a collection enters.
pub(crate) fn walked(
    alloc: Global,
    stages: Stages,
    collection: Proper,
    line: &mut Line,
) -> Result<Option<Stages>, NoMemory>
    ensures { IfOk result (λ x. IfSome x (λ s. stages_in s ≡ stages_in stages)) }
{
    let turn = stages.walk(alloc, collection)?;
    let after = driven(alloc, turn, line)?;
    Ok(after)
}

/// The completion.
pub(crate) fn completed(
    alloc: Global,
    stages: Stages,
    line: &mut Line,
) -> Result<Option<Stages>, NoMemory>
    ensures { IfOk result (λ x. IfSome x (λ s. stages_in s ≡ [])) }
{
    let turn = stages.complete(alloc)?;
    let after = driven(alloc, turn, line)?;
    Ok(after)
}
