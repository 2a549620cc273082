//! How an input goes on until a turn is due.
ghost use Rattle.std.specs.Prelude.{◌≡◌, ◌<◌, ◌≤◌, ◌+◌, length, IfOk};
ghost use Rattle.seq_turns.specs.Seen.{seen, rested};
ghost use Rattle.seq_values.specs.Plain.{plain};
ghost use Rattle.xf_stages.specs.Flowing.{Leads, effect_course, entering_last, walk_left, weight, flow_weight, enter_weight};
ghost use Rattle.xf_stages.specs.Left.{at_rest, entering, through, walking, left_step};

use crate::completing::finish;
use crate::flowing::{last_of, react, unwound, with_walk};
use crate::state::{
    AtCall, AtOut, AtSeq, AtStep, Effect, Effected, Flow, Passing, StageTurn, Unwound, Walk,
};
use crate::ways::let_go;
use seq_base::Thrown;
use seq_turns::{Proper, Rest, Seen, Sought, Split, seek_rest, split_cursor};
use seq_vector::NoMemory;
use std::alloc::Global;

/// An input enters the stage at a place, or passed the last one.
pub(crate) fn enters(
    alloc: Global,
    flow: Flow,
    at: usize,
    item: Proper,
) -> Result<Passing, NoMemory>
    ensures leads { IfOk result (Leads (at_rest flow) (entering flow at (plain item.value))) }
    ensures lighter { IfOk result (λ p. weight p < enter_weight flow at) }
{
    if at >= flow.stages.len() {
        return Ok(goes_out(flow, at, item));
    }
    let effected = react(alloc, flow, at, item)?;
    let Effected { flow, effect } = effected;
    Ok(on_effect(flow, at, effect))
}

/// What passed the last stage is to be reduced or gathered.
fn goes_out(flow: Flow, at: usize, item: Proper) -> Passing
    requires { length flow.stages.items ≤ at }
    ensures leads { Leads (at_rest flow) (entering flow at (plain item.value)) result }
    ensures lighter { weight result ≡ 0 }
{
    Passing::Turned(StageTurn::Out {
        waiting: AtOut { flow },
        item,
    })
}

/// The stage at a place has this effect.
pub(crate) fn on_effect(flow: Flow, at: usize, effect: Effect) -> Passing
    requires { at < length flow.stages.items }
    ensures leads { Leads (at_rest flow) (effect_course effect flow at) result }
    ensures lighter { weight result ≤ enter_weight flow (at + 1) }
{
    match effect {
        Effect::Calls {
            function,
            args,
            kept,
        } => Passing::Turned(StageTurn::Apply {
            waiting: AtCall { flow, at, kept },
            function,
            args,
        }),
        Effect::Passes(item) => Passing::Entering {
            flow,
            at: at + 1,
            item,
        },
        Effect::PassesLast(item) => enters_last(flow, at + 1, item),
        Effect::PassesEach(collection) => walk_on(flow, at + 1, Rest::Beyond(collection)),
        Effect::PassesNothing => Passing::Through { flow, done: false },
        Effect::Done => Passing::Through { flow, done: true },
        Effect::Throws(why) => throws(flow, why),
    }
}

/// A stage throws.
fn throws(flow: Flow, why: Thrown) -> Passing
    ensures { result ≡ Passing.Turned (StageTurn.Throw why) }
{
    let_go(flow);
    Passing::Turned(StageTurn::Throw(why))
}

#[tactic(auto, using(crate::proofs::PassTurns::enters_last_lighter))]
/// An input enters the stage at a place, and then all is done.
fn enters_last(flow: Flow, at: usize, item: Proper) -> Passing
    ensures leads { Leads (at_rest flow) (entering_last flow at (plain item.value)) result }
    ensures lighter { weight result ≤ enter_weight flow at }
{
    let flow = last_of(flow);
    Passing::Entering { flow, at, item }
}

/// Each element of what is left of a collection enters the stage at a place.
pub(crate) fn walk_on(flow: Flow, at: usize, rest: Rest) -> Passing
    requires { at ≤ length flow.stages.items }
    ensures leads { Leads (at_rest flow) (walking flow at (rested rest)) result }
    ensures lighter { weight result ≤ flow_weight flow + 1 }
{
    match seek_rest(rest) {
        Sought::Now(what) => walk_found(flow, at, what),
        Sought::Ask(value) => Passing::Turned(StageTurn::Seq {
            waiting: AtSeq { flow, at },
            value,
        }),
    }
}

/// The seq is there, each of whose elements enters the stage at a place.
pub(crate) fn walk_found(flow: Flow, at: usize, what: Seen) -> Passing
    requires { at ≤ length flow.stages.items }
    ensures leads { Leads (at_rest flow) (walk_left flow at (seen what)) result }
    ensures lighter { weight result ≤ flow_weight flow + 1 }
{
    match what {
        Seen::Nil => Passing::Through { flow, done: false },
        Seen::At(place) => Passing::Turned(StageTurn::Visit {
            waiting: AtStep { flow, at, place },
        }),
    }
}

/// The own step for an element was taken.
pub(crate) fn step_on(waiting: AtStep) -> Result<Passing, NoMemory>
    ensures { IfOk result (Leads (at_rest waiting.flow) (left_step waiting)) }
{
    let AtStep { flow, at, place } = waiting;
    let split = split_cursor(place)?;
    let Split { first, rest } = split;
    let more = with_walk(flow, Walk { at, rest })?;
    Ok(Passing::Entering {
        flow: more,
        at,
        item: first,
    })
}

/// What entered is through: the innermost walk goes on, or nothing waits any more.
pub(crate) fn goes_through(alloc: Global, flow: Flow, done: bool) -> Passing
    ensures leads { Leads (at_rest flow) (through flow done) result }
    ensures lighter { weight result < flow_weight flow + 1 }
{
    if done {
        let flow = last_of(flow);
        return finish(alloc, flow, true);
    }
    let Unwound { flow, walk } = unwound(flow);
    match walk {
        None => finish(alloc, flow, false),
        Some(walk) => {
            let Walk { at, rest } = walk;
            walk_on(flow, at, rest)
        }
    }
}
