//! What is told to the frames.
ghost use Rattle.std.specs.Prelude.{◌≡◌, ◌+◌, [], ◌∷◌, ◌++◌, cond, IfOk};
ghost use Rattle.seq_plan.specs.Nodes.{is_truthy};
ghost use Rattle.eval_frames.specs.Parts.{tree, to_come};
ghost use Rattle.eval_frames.specs.Frames.{ground, beneath, waits};
ghost use Rattle.eval_frames.specs.Leads.{Stands, Comes};
ghost use Rattle.eval_frames.specs.Weights.{weight, weights, rest_weight, frame_weight};
ghost use Rattle.seq_values.specs.Plain.{plain, plains};
ghost use Rattle.eval_frames.specs.declared.state.Frame.TheVariants as F;

use crate::deciding::{until_any, while_all};
use crate::gathering::gather;
use crate::locals::with_local;
use crate::rules::Rules;
use crate::state::{
    Advance, Beginning, Code, Event, Frame, Members, Now, Purpose, Ready, Rest, Runner,
};
use seq_turns::{Gathered, Proper, ProperList, is_truthy};
use seq_vector::NoMemory;
use std::alloc::Global;

/// The head of a call has its value.
fn head_told<R: Rules>(
    alloc: Global,
    code: &Code,
    members: Members,
    value: Proper,
    rest: Rest<R>,
) -> Result<Advance<R>, NoMemory>
    ensures { IfOk result (λ a. Comes (ground R.running R.table code.now) rest.left (waits {b = R.Rule} (ground R.running R.table code.now) (F.Head members) (beneath (ground R.running R.table code.now) rest) (plain value.value)) (rest_weight code.now rest + (weights (to_come code.now members) + 3)) a) }
{
    let none = Gathered::none(alloc);
    let all = gather(alloc, code, Purpose::Call(value), none, members, rest)?;
    Ok(all)
}

/// The values with one more, where there may be so many.
fn with_value(values: Gathered, value: Proper) -> Result<Gathered, NoMemory>
    ensures { IfOk result (λ all. plains all.items.items ≡ plains values.items.items ++ plain value.value ∷ []) }
{
    if values.len() >= 4294967295 {
        return Err(NoMemory);
    }
    let all = values.and(value)?;
    Ok(all)
}

/// One more part has its value.
fn part_told<R: Rules>(
    alloc: Global,
    code: &Code,
    purpose: Purpose,
    values: Gathered,
    members: Members,
    value: Proper,
    rest: Rest<R>,
) -> Result<Advance<R>, NoMemory>
    ensures { IfOk result (λ a. Comes (ground R.running R.table code.now) rest.left (waits {b = R.Rule} (ground R.running R.table code.now) (F.Parts purpose values members) (beneath (ground R.running R.table code.now) rest) (plain value.value)) (rest_weight code.now rest + (weights (to_come code.now members) + 2)) a) }
{
    let values = with_value(values, value)?;
    let all = gather(alloc, code, purpose, values, members, rest)?;
    Ok(all)
}

/// The value of a `let` is bound for its body.
fn let_told<R: Rules>(
    alloc: Global,
    code: &Code,
    body: u32,
    locals: ProperList,
    value: Proper,
    rest: Rest<R>,
) -> Result<Runner<R>, NoMemory>
    ensures { IfOk result (λ r. Stands (ground R.running R.table code.now) rest.left (waits {b = R.Rule} (ground R.running R.table code.now) (F.Let body locals) (beneath (ground R.running R.table code.now) rest) (plain value.value)) (rest_weight code.now rest + weight (tree code.now body)) r) }
{
    let locals = with_local(alloc, locals, value)?;
    Ok(Runner {
        now: Now::Eval { expr: body, locals },
        rest,
    })
}

/// The branch that a test decides.
fn branch(value: Proper, yes: u32, no: u32) -> u32
    ensures { result ≡ cond (is_truthy (plain value.value)) yes no }
{
    if is_truthy(&value.value) { yes } else { no }
}

/// The test of an `if` has its value.
fn if_told<R: Rules>(
    code: &Code,
    yes: u32,
    no: u32,
    locals: ProperList,
    value: Proper,
    rest: Rest<R>,
) -> Runner<R>
    ensures { Stands (ground R.running R.table code.now) rest.left (waits {b = R.Rule} (ground R.running R.table code.now) (F.If yes no locals) (beneath (ground R.running R.table code.now) rest) (plain value.value)) (rest_weight code.now rest + (weight (tree code.now yes) + weight (tree code.now no))) result }
{
    let expr = branch(value, yes, no);
    Runner {
        now: Now::Eval { expr, locals },
        rest,
    }
}

/// The value of a form is printed.
fn print_told<R: Rules>(code: &Code, value: Proper, rest: Rest<R>) -> Runner<R>
    ensures { Stands (ground R.running R.table code.now) rest.left (waits {b = R.Rule} (ground R.running R.table code.now) F.Print (beneath (ground R.running R.table code.now) rest) (plain value.value)) (rest_weight code.now rest + 1) result }
{
    let state = R::begin_print(code.processors, value);
    Runner {
        now: Now::Turn(Ready::Begin(Beginning { state })),
        rest,
    }
}

/// A frame that was the top one is told a value.
fn frame_told<R: Rules>(
    alloc: Global,
    code: &Code,
    frame: Frame<R>,
    value: Proper,
    rest: Rest<R>,
) -> Result<Advance<R>, NoMemory>
    ensures { IfOk result (λ a. Comes (ground R.running R.table code.now) rest.left (waits (ground R.running R.table code.now) frame (beneath (ground R.running R.table code.now) rest) (plain value.value)) (rest_weight code.now rest + frame_weight code.now frame) a) }
{
    match frame {
        Frame::Rule(called) => Ok(Advance::On(Runner {
            now: Now::Turn(Ready::Got(called, value)),
            rest,
        })),
        Frame::Head(members) => head_told(alloc, code, members, value, rest),
        Frame::Parts {
            purpose,
            values,
            members,
        } => part_told(alloc, code, purpose, values, members, value, rest),
        Frame::Let { body, locals } => {
            let runner = let_told(alloc, code, body, locals, value, rest)?;
            Ok(Advance::On(runner))
        }
        Frame::If { yes, no, locals } => {
            Ok(Advance::On(if_told(code, yes, no, locals, value, rest)))
        }
        Frame::And(members) => {
            let runner = while_all(code, value, members, rest)?;
            Ok(Advance::On(runner))
        }
        Frame::Or(members) => {
            let runner = until_any(code, value, members, rest)?;
            Ok(Advance::On(runner))
        }
        Frame::Print => Ok(Advance::On(print_told(code, value, rest))),
    }
}

/// The top frame is told a value; where none waits the work ends with it.
pub(crate) fn tell<R: Rules>(
    alloc: Global,
    code: &Code,
    value: Proper,
    rest: Rest<R>,
) -> Result<Advance<R>, NoMemory>
    ensures { IfOk result (λ a. Comes (ground R.running R.table code.now) rest.left (beneath (ground R.running R.table code.now) rest (plain value.value)) (rest_weight code.now rest) a) }
{
    let Rest { left, mut frames } = rest;
    match frames.pop() {
        None => Ok(Advance::Comes(Event::Gives { value, left })),
        Some(frame) => frame_told(alloc, code, frame, value, Rest { left, frames }),
    }
}
