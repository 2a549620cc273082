//! Expressions whose values are gathered: the arguments of a call, and the members of a vector.
ghost use Rattle.std.specs.Prelude.{◌≡◌, ◌+◌, ◌≤◌, length, IfOk};
ghost use Rattle.eval_frames.specs.Frames.{ground, beneath, gathered};
ghost use Rattle.eval_frames.specs.Leads.{Comes};
ghost use Rattle.eval_frames.specs.Parts.{to_come};
ghost use Rattle.eval_frames.specs.Weights.{weights, rest_weight};
ghost use Rattle.seq_meaning.specs.Evaluates.{evals};
ghost use Rattle.seq_values.specs.Plain.{plains};
ghost use Rattle.eval_frames.specs.declared.state.Purpose.TheVariants as P;

use crate::calls::calls;
use crate::frames::{evaluates, stopped, tells};
use crate::parts::split;
use crate::rules::Rules;
use crate::state::{Advance, Ahead, Code, Frame, Members, Purpose, Rest};
use seq_turns::{Gathered, Made, ProperList, vector_made};
use seq_vector::NoMemory;
use std::alloc::Global;

/// A vector of the values is told to the top frame, unless it is too deep.
fn vector_told<R: Rules>(code: &Code, items: ProperList, rest: Rest<R>) -> Advance<R>
    requires { length items.items ≤ 4294967295 }
    ensures { Comes (ground R.running R.table code.now) rest.left (gathered P.Vector (beneath (ground R.running R.table code.now) rest) (plains items.items)) (rest_weight code.now rest + 2) result }
{
    match vector_made(items) {
        Made::Value(value) => Advance::On(tells(code, value, rest)),
        Made::Thrown(why) => Advance::Comes(stopped(rest, why)),
    }
}

/// All values are gathered.
fn finished<R: Rules>(
    code: &Code,
    purpose: Purpose,
    values: ProperList,
    rest: Rest<R>,
) -> Advance<R>
    requires { length values.items ≤ 4294967295 }
    ensures { Comes (ground R.running R.table code.now) rest.left (gathered purpose (beneath (ground R.running R.table code.now) rest) (plains values.items)) (rest_weight code.now rest + 2) result }
{
    match purpose {
        Purpose::Call(function) => Advance::Comes(calls(code, function, values, rest)),
        Purpose::Vector => vector_told(code, values, rest),
    }
}

/// Evaluates the next expression whose value is gathered, or goes on with all of them.
pub(crate) fn gather<R: Rules>(
    alloc: Global,
    code: &Code,
    purpose: Purpose,
    values: Gathered,
    members: Members,
    rest: Rest<R>,
) -> Result<Advance<R>, NoMemory>
    ensures { IfOk result (λ a. Comes (ground R.running R.table code.now) rest.left (evals (plains code.now.values.items) (to_come code.now members) (plains members.locals.items) (plains values.items.items) (gathered purpose (beneath (ground R.running R.table code.now) rest))) (rest_weight code.now rest + weights (to_come code.now members) + 2) a) }
{
    match split(code, members)? {
        Ahead::Over => {
            let values = values.listed(alloc)?;
            Ok(finished(code, purpose, values, rest))
        }
        Ahead::Part {
            number,
            locals,
            later,
        } => {
            let frame = Frame::Parts {
                purpose,
                values,
                members: later,
            };
            let runner = evaluates(code, number, locals, frame, rest)?;
            Ok(Advance::On(runner))
        }
    }
}
