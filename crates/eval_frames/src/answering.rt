//! What a work is told from outside: the answer of a part that it asked, and the part that it made.
ghost use Rattle.std.specs.Prelude.{◌≡◌, ◌+◌, IfOk};
ghost use Rattle.eval_frames.specs.Frames.{ground, beneath, asking_plan, maker_plan};
ghost use Rattle.eval_frames.specs.Leads.{Stands, Comes, Leads};
ghost use Rattle.eval_frames.specs.Weights.{rest_weight};
ghost use Rattle.seq_base.specs.declared.thrown.Thrown.TheVariants as E;
ghost use Rattle.seq_plan.specs.Plan.{seq, then, got};
ghost use Rattle.seq_values.specs.Plain.{plain};

use crate::finding::found_now;
use crate::frames::{let_go, stopped, tells};
use crate::rules::Rules;
use crate::running::run;
use crate::state::{
    Advance, Asker, Asking, Code, Event, FoundNow, Maker, Now, Ready, Rest, Runner, Seeking,
};
use crate::turning::asks;
use seq_base::Thrown;
use seq_turns::Proper;
use seq_values::CellId;
use seq_vector::NoMemory;
use std::alloc::Global;

/// What a part gave has no `seq`.
fn no_seq<R: Rules>(rule: Seeking<R>, rest: Rest<R>) -> Event<R>
    ensures { result ≡ Event.Throws E.BadType rest.left }
{
    let_go(rule);
    stopped(rest, Thrown::BadType)
}

/// A rule that waits for the `seq` of this value: it goes on where that is there, or a further part is asked.
fn seq_told<R: Rules>(code: &Code, rule: Seeking<R>, value: Proper, rest: Rest<R>) -> Advance<R>
    ensures { Comes (ground R.running R.table code.now) rest.left (seq (plain value.value) (λ w. then (R.running.left rule.state (got w)) (beneath (ground R.running R.table code.now) rest))) (rest_weight code.now rest + 2) result }
{
    match found_now(value) {
        FoundNow::Now(found) => Advance::On(Runner {
            now: Now::Turn(Ready::Found(rule, found)),
            rest,
        }),
        FoundNow::Asks(id) => Advance::Comes(asks(code, id, Asking::Seq(rule), rest)),
        FoundNow::NoSeq => Advance::Comes(no_seq(rule, rest)),
    }
}

/// A rule is told the value of the part that it asked.
fn part_told<R: Rules>(code: &Code, asking: Asking<R>, value: Proper, rest: Rest<R>) -> Advance<R>
    ensures { Comes (ground R.running R.table code.now) rest.left (asking_plan (ground R.running R.table code.now) asking (beneath (ground R.running R.table code.now) rest) (plain value.value)) (rest_weight code.now rest + 2) result }
{
    match asking {
        Asking::Value(rule) => Advance::On(Runner {
            now: Now::Turn(Ready::Got(rule, value)),
            rest,
        }),
        Asking::Seq(rule) => seq_told(code, rule, value, rest),
    }
}

/// The part that was asked gave a value: what the work comes to next. A rule that asked for the `seq` of a value that is a part itself asks that one.
pub fn answered<R: Rules>(
    alloc: Global,
    code: &Code,
    asker: Asker<R>,
    value: Proper,
) -> Result<Event<R>, NoMemory>
    ensures { IfOk result (λ e. Leads (ground R.running R.table code.now) asker.rest.left (asking_plan (ground R.running R.table code.now) asker.asking (beneath (ground R.running R.table code.now) asker.rest) (plain value.value)) (rest_weight code.now asker.rest + 2) e) }
{
    let Asker { asking, rest, .. } = asker;
    match part_told(code, asking, value, rest) {
        Advance::On(runner) => run(alloc, code, runner),
        Advance::Comes(event) => Ok(event),
    }
}

/// The part that was asked threw: the work ends with its error.
pub fn refused<R: Rules>(asker: Asker<R>, why: Thrown) -> Event<R>
    ensures { result ≡ Event.Throws why asker.rest.left }
{
    let Asker { asking, rest, .. } = asker;
    let_go(asking);
    stopped(rest, why)
}

/// What waited for a part to be made is told its number.
fn made_told<R: Rules>(code: &Code, maker: Maker<R>, id: CellId, rest: Rest<R>) -> Runner<R>
    ensures { Stands (ground R.running R.table code.now) rest.left (maker_plan (ground R.running R.table code.now) maker (beneath (ground R.running R.table code.now) rest) id) (rest_weight code.now rest + 1) result }
{
    match maker {
        Maker::Rule(rule) => Runner {
            now: Now::Turn(Ready::Made(rule, id)),
            rest,
        },
        Maker::LazySeq => tells(code, Proper::of_part(id), rest),
    }
}

/// The part was made, with this number: what the work comes to next.
pub fn made<R: Rules>(
    alloc: Global,
    code: &Code,
    maker: Maker<R>,
    rest: Rest<R>,
    id: CellId,
) -> Result<Event<R>, NoMemory>
    ensures { IfOk result (λ e. Leads (ground R.running R.table code.now) rest.left (maker_plan (ground R.running R.table code.now) maker (beneath (ground R.running R.table code.now) rest) id) (rest_weight code.now rest + 1) e) }
{
    let runner = made_told(code, maker, id, rest);
    let event = run(alloc, code, runner)?;
    Ok(event)
}
