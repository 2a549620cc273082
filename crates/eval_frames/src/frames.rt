//! Frames that wait, and what is told to the top one.
ghost use Rattle.std.specs.Prelude.{◌≡◌, ◌+◌, ◌-◌, ◌<◌, IfOk};
ghost use Rattle.eval_frames.specs.Frames.{ground, evaluated, waits, beneath};
ghost use Rattle.eval_frames.specs.Leads.{Stands};
ghost use Rattle.eval_frames.specs.Parts.{tree};
ghost use Rattle.eval_frames.specs.Weights.{weight, frame_weight, rest_weight};
ghost use Rattle.seq_values.specs.Plain.{plain, plains};

use crate::rules::Rules;
use crate::state::{Code, Event, Frame, Now, Rest, Runner};
use seq_base::Thrown;
use seq_turns::{Proper, ProperList};
use seq_vector::NoMemory;

/// Lets a value go.
pub(crate) fn let_go<T: Drop>(_value: T) {}

/// The work ends with an error.
pub(crate) fn stopped<R: Rules>(rest: Rest<R>, why: Thrown) -> Event<R>
    ensures { result ≡ Event.Throws why rest.left }
{
    Event::Throws {
        why,
        left: rest.left,
    }
}

/// One own step fewer is left.
pub(crate) fn paid<R: Rules>(rest: Rest<R>) -> Rest<R>
    requires { 0 < rest.left }
    ensures left { result.left ≡ rest.left - 1 }
    ensures frames { result.frames ≡ rest.frames }
{
    let Rest { left, frames } = rest;
    Rest {
        left: left - 1,
        frames,
    }
}

#[tactic(auto, using(crate::proofs::Pushing::pushed_under))]
/// One more frame waits.
pub(crate) fn pushed<R: Rules>(
    code: &Code,
    rest: Rest<R>,
    frame: Frame<R>,
) -> Result<Rest<R>, NoMemory>
    ensures left { IfOk result (λ r. r.left ≡ rest.left) }
    ensures plan { IfOk result (λ r. beneath (ground R.running R.table code.now) r ≡ waits (ground R.running R.table code.now) frame (beneath (ground R.running R.table code.now) rest)) }
    ensures light { IfOk result (λ r. rest_weight code.now r ≡ rest_weight code.now rest + frame_weight code.now frame) }
{
    let Rest { left, mut frames } = rest;
    match frames.push(frame) {
        Ok(()) => Ok(Rest { left, frames }),
        Err(_) => Err(NoMemory),
    }
}

/// An expression is evaluated, and the frame waits for its value.
pub(crate) fn evaluates<R: Rules>(
    code: &Code,
    expr: u32,
    locals: ProperList,
    frame: Frame<R>,
    rest: Rest<R>,
) -> Result<Runner<R>, NoMemory>
    ensures { IfOk result (λ r. Stands (ground R.running R.table code.now) rest.left (evaluated code.now expr (plains locals.items) (waits (ground R.running R.table code.now) frame (beneath (ground R.running R.table code.now) rest))) (rest_weight code.now rest + frame_weight code.now frame + weight (tree code.now expr)) r) }
{
    let rest = pushed(code, rest, frame)?;
    Ok(Runner {
        now: Now::Eval { expr, locals },
        rest,
    })
}

/// The top frame is told a value.
pub(crate) fn tells<R: Rules>(code: &Code, value: Proper, rest: Rest<R>) -> Runner<R>
    ensures { Stands (ground R.running R.table code.now) rest.left (beneath (ground R.running R.table code.now) rest (plain value.value)) (rest_weight code.now rest) result }
{
    Runner {
        now: Now::Tell(value),
        rest,
    }
}
