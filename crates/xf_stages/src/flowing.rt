//! Stages in the midst of an input: one is taken out and put back, and what waits.
ghost use Rattle.std.specs.Prelude.{◌≡◌, ◌<◌, ◌≤◌, ◌+◌, ◌++◌, [], ◌∷◌, length, drop, take, slice_set, slice_index_or, option_to_list, IfOk, MatchOption};
ghost use Rattle.seq_turns.specs.Seen.{rested};
ghost use Rattle.seq_values.specs.Plain.{plain};
ghost use Rattle.xf_stages.specs.Flowing.{Puts, Affects, Lasts, SameButWalks};
ghost use Rattle.xf_stages.specs.Left.{entering, left_call};
ghost use Rattle.xf_stages.specs.declared.state.Stage.TheVariants as S;

use crate::answering::on_answer;
use crate::reacting::on_input;
use crate::state::{
    AtCall, Effected, Flow, Hole, Reacted, Replaced, Stage, UnderWay, Unwound, Walk,
};
use crate::ways::let_go;
use seq_turns::Proper;
use seq_vector::NoMemory;
use std::alloc::Global;
use std::mem;

fn replace_at(stages: &mut [Stage], at: usize, stage: Stage) -> Stage
    requires { at < length stages.old }
    ensures value { result ≡ slice_index_or stages.old at result }
    ensures after { stages.new ≡ slice_set stages.old at stage }
{
    mem::replace(&mut stages[at], stage)
}

/// Another stage in the place of one, which is handed out.
fn replaced(stages: Vec<Stage>, at: usize, stage: Stage) -> Replaced
    requires { at < length stages.items }
    ensures old { result.old ≡ slice_index_or stages.items at result.old }
    ensures stages { result.stages.items ≡ slice_set stages.items at stage }
{
    let mut stages = stages;
    let old = replace_at(&mut stages, at, stage);
    Replaced { stages, old }
}

/// The stage at a place is taken out. `cat`, which holds nothing, stands there meanwhile.
#[tactic(auto, using(crate::proofs::Kept::within_set, crate::proofs::Kept::first_left))]
pub(crate) fn take_stage(flow: Flow, at: usize) -> Hole
    requires { at < length flow.stages.items }
    ensures stage { drop at flow.stages.items ≡ result.stage ∷ drop (at + 1) flow.stages.items }
    ensures puts { Puts flow at S.Cat result.flow }
{
    let Flow {
        stages,
        walks,
        under_way,
    } = flow;
    let Replaced { stages, old } = replaced(stages, at, Stage::Cat);
    Hole {
        flow: Flow {
            stages,
            walks,
            under_way,
        },
        stage: old,
    }
}

/// A stage is put in its place.
#[tactic(auto, using(crate::proofs::Kept::within_set))]
pub(crate) fn put_stage(flow: Flow, at: usize, stage: Stage) -> Flow
    requires { at < length flow.stages.items }
    ensures { Puts flow at stage result }
{
    let Flow {
        stages,
        walks,
        under_way,
    } = flow;
    let Replaced { stages, old } = replaced(stages, at, stage);
    let_go(old);
    Flow {
        stages,
        walks,
        under_way,
    }
}

/// The stage at a place takes an input.
pub(crate) fn react(
    alloc: Global,
    flow: Flow,
    at: usize,
    item: Proper,
) -> Result<Effected, NoMemory>
    requires { at < length flow.stages.items }
    ensures { IfOk result (Affects flow at (entering flow at (plain item.value))) }
{
    let Hole { flow, stage } = take_stage(flow, at);
    let reacted = on_input(alloc, stage, item)?;
    let Reacted { stage, effect } = reacted;
    let flow = put_stage(flow, at, stage);
    Ok(Effected { flow, effect })
}

/// The function of a stage has answered.
pub(crate) fn take_answer(waiting: AtCall, answer: Proper) -> Effected
    ensures { Affects waiting.flow waiting.at (left_call waiting (plain answer.value)) result }
{
    let AtCall { flow, at, kept } = waiting;
    let Hole { flow, stage } = take_stage(flow, at);
    let Reacted { stage, effect } = on_answer(stage, kept, answer);
    let flow = put_stage(flow, at, stage);
    Effected { flow, effect }
}

/// Nothing waits any more, and all is done once what is under way is through.
pub(crate) fn last_of(flow: Flow) -> Flow
    ensures { Lasts flow result }
{
    let Flow {
        stages,
        mut walks,
        under_way,
    } = flow;
    walks.clear();
    let under_way = match under_way {
        UnderWay::Input { .. } => UnderWay::Input { last: true },
        UnderWay::Completion { from } => UnderWay::Completion { from },
    };
    Flow {
        stages,
        walks,
        under_way,
    }
}

/// One more walk waits, of which each element enters the stage at a place.
pub(crate) fn with_walk(flow: Flow, walk: Walk) -> Result<Flow, NoMemory>
    requires { walk.at ≤ length flow.stages.items }
    ensures same { IfOk result (SameButWalks flow) }
    ensures walks { IfOk result (λ g. g.walks.items ≡ flow.walks.items ++ walk ∷ []) }
{
    let Flow {
        stages,
        mut walks,
        under_way,
    } = flow;
    match walks.push(walk) {
        Ok(()) => Ok(Flow {
            stages,
            walks,
            under_way,
        }),
        Err(_) => Err(NoMemory),
    }
}

/// The innermost walk is taken, where there is one.
pub(crate) fn unwound(flow: Flow) -> Unwound
    ensures same { SameButWalks flow result.flow }
    ensures walks { flow.walks.items ≡ result.flow.walks.items ++ option_to_list result.walk }
    ensures within { MatchOption result.walk (result.flow.walks.items ≡ []) (λ w. w.at ≤ length result.flow.stages.items) }
{
    let Flow {
        stages,
        mut walks,
        under_way,
    } = flow;
    let walk = walks.pop();
    Unwound {
        flow: Flow {
            stages,
            walks,
            under_way,
        },
        walk,
    }
}
