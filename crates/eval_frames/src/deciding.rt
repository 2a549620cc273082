//! `and` and `or`.
ghost use Rattle.std.specs.Prelude.{◌≡◌, ◌+◌, IfOk};
ghost use Rattle.eval_frames.specs.Frames.{ground, beneath};
ghost use Rattle.eval_frames.specs.Leads.{Stands};
ghost use Rattle.eval_frames.specs.Parts.{to_come};
ghost use Rattle.eval_frames.specs.Weights.{weights, rest_weight};
ghost use Rattle.seq_meaning.specs.Evaluates.{while_true, until_true};
ghost use Rattle.seq_values.specs.Plain.{plain, plains};

use crate::frames::{evaluates, let_go, tells};
use crate::parts::split;
use crate::rules::Rules;
use crate::state::{Ahead, Code, Frame, Members, Rest, Runner};
use seq_turns::{Proper, is_truthy};
use seq_vector::NoMemory;

/// The value decides: it is told to the top frame.
fn decided<R: Rules>(code: &Code, value: Proper, members: Members, rest: Rest<R>) -> Runner<R>
    ensures { Stands (ground R.running R.table code.now) rest.left (beneath (ground R.running R.table code.now) rest (plain value.value)) (rest_weight code.now rest) result }
{
    tells(code, value, rest)
}

/// Goes on with an `and` after a value: the first value that is false or nil decides, or the last one.
pub(crate) fn while_all<R: Rules>(
    code: &Code,
    value: Proper,
    members: Members,
    rest: Rest<R>,
) -> Result<Runner<R>, NoMemory>
    ensures { IfOk result (λ r. Stands (ground R.running R.table code.now) rest.left (while_true (plains code.now.values.items) (to_come code.now members) (plains members.locals.items) (plain value.value) (beneath (ground R.running R.table code.now) rest)) (rest_weight code.now rest + weights (to_come code.now members) + 1) r) }
{
    let holds = is_truthy(&value.value);
    if !holds {
        return Ok(decided(code, value, members, rest));
    }
    match split(code, members)? {
        Ahead::Over => Ok(tells(code, value, rest)),
        Ahead::Part {
            number,
            locals,
            later,
        } => {
            let_go(value);
            let runner = evaluates(code, number, locals, Frame::And(later), rest)?;
            Ok(runner)
        }
    }
}

/// Goes on with an `or` after a value: the first value that is true decides, or the last one.
pub(crate) fn until_any<R: Rules>(
    code: &Code,
    value: Proper,
    members: Members,
    rest: Rest<R>,
) -> Result<Runner<R>, NoMemory>
    ensures { IfOk result (λ r. Stands (ground R.running R.table code.now) rest.left (until_true (plains code.now.values.items) (to_come code.now members) (plains members.locals.items) (plain value.value) (beneath (ground R.running R.table code.now) rest)) (rest_weight code.now rest + weights (to_come code.now members) + 1) r) }
{
    let holds = is_truthy(&value.value);
    if holds {
        return Ok(decided(code, value, members, rest));
    }
    match split(code, members)? {
        Ahead::Over => Ok(tells(code, value, rest)),
        Ahead::Part {
            number,
            locals,
            later,
        } => {
            let_go(value);
            let runner = evaluates(code, number, locals, Frame::Or(later), rest)?;
            Ok(runner)
        }
    }
}
