//! A work goes on.
ghost use Rattle.std.specs.Prelude.{◌≡◌, IfOk};
ghost use Rattle.eval_frames.specs.Frames.{ground, runner_plan};
ghost use Rattle.eval_frames.specs.Leads.{Comes, Leads};
ghost use Rattle.eval_frames.specs.Weights.{runner_weight};

use crate::evaluating::eval;
use crate::rules::Rules;
use crate::state::{Advance, Code, Event, Now, Runner};
use crate::telling::tell;
use crate::turning::take_turn;
use seq_vector::NoMemory;
use std::alloc::Global;

/// A silent turn, or what the work comes to: an own step, an ask, a make or its end. A silent turn tells the value of a rule or of an
/// expression to the frame that waits for it, or begins an expression.
pub fn advance<R: Rules>(
    alloc: Global,
    code: &Code,
    runner: Runner<R>,
) -> Result<Advance<R>, NoMemory>
    ensures { IfOk result (λ a. Comes (ground R.running R.table code.now) runner.rest.left (runner_plan (ground R.running R.table code.now) runner) (runner_weight code.now runner) a) }
{
    let Runner { now, rest } = runner;
    match now {
        Now::Eval { expr, locals } => eval(alloc, code, expr, locals, rest),
        Now::Tell(value) => tell(alloc, code, value, rest),
        Now::Turn(ready) => take_turn(alloc, code, ready, rest),
    }
}

/// What a work comes to next: an own step, an ask, a make or its end. Want of memory is the only `Err`, and lets the work go.
pub fn run<R: Rules>(alloc: Global, code: &Code, runner: Runner<R>) -> Result<Event<R>, NoMemory>
    ensures { IfOk result (λ e. Leads (ground R.running R.table code.now) runner.rest.left (runner_plan (ground R.running R.table code.now) runner) (runner_weight code.now runner) e) }
{
    let mut runner = runner;
    loop {
        let turn = advance(alloc, code, runner)?;
        match turn {
            Advance::On(next) => runner = next,
            Advance::Comes(event) => return Ok(event),
        }
    }
}
