//! `sequence` and the work of its parts, which pull from a collection.
ghost use Rattle.std.specs.Prelude.{◌≡◌, [], ◌∷◌, drop, true, IfOk};
ghost use Rattle.pull_rules.specs.Kept.{IsThrough};
ghost use Rattle.pull_rules.specs.Left.{left_part, left_seq, left_step, pull_at, pull_ends, pull_on, pull_over, pull_stops, Takes};
ghost use Rattle.pull_rules.specs.Reducing.{gathering_node, gathering_stages, IsGatheringAsked, IsAsked, waiting_for, waiting_stages};
ghost use Rattle.pull_rules.specs.Through.{TurnThrough};
ghost use Rattle.pull_rules.specs.declared.flow.GatheringTurn.TheVariants as GT;
ghost use Rattle.pull_rules.specs.declared.state.AtSeq.TheVariants as Q;
ghost use Rattle.pull_rules.specs.declared.state.AtStep.TheVariants as T;
ghost use Rattle.seq_base.specs.declared.thrown.Thrown.TheVariants.{Overflow};
ghost use Rattle.seq_plan.specs.Plan.{give, make, seq, throw};
ghost use Rattle.seq_plan.specs.Stages.{fresh, gathers, with_stages};
ghost use Rattle.seq_plan.specs.WellFormed.{sights};
ghost use Rattle.seq_turns.specs.Seen.{rested, seen};
ghost use Rattle.seq_values.specs.Model as M;
ghost use Rattle.seq_values.specs.Plain.{plain, plains, plain_term};
ghost use Rattle.seq_values.specs.WellFormedTerms.{takes};
ghost use Rattle.seq_values.specs.declared.words.Kind.TheVariants as K;
ghost use Rattle.seq_values.specs.declared.words.Op.TheVariants as O;
ghost use Rattle.stage_rows.specs.Table.{last_outputs, make_pull, pull_term as pull_row, replaced};
ghost use Rattle.xf_stages.specs.Left.{stages_in, states_in};
ghost use Rattle.xf_stages.specs.Opening.{AreFresh};

use crate::ending::gives_last;
use crate::flow::{Gathering, GatheringTurn, Outputs};
use crate::state::{
    AtPart, AtSeq, AtStages, AtStep, Midway, ProperTerm, Pull, Pulling, State, Work,
};
use crate::ways::{let_go, makes, seeks, throws, visits};
use seq_base::Thrown;
use seq_plan::Cursor;
use seq_turns::{
    Gathered, Grown, Next, Proper, ProperList, Rest, Seen, Sought, Split, rest_value, seek,
    seek_rest, split_cursor,
};
use seq_values::{Op, Term};
use seq_vector::NoMemory;
use std::alloc::Global;
use xf_stages::{Opened, Stages};

/// `sequence`: the part that pulls from the collection is made.
#[tactic(auto, using(crate::proofs::TransduceTurns::thrown, crate::proofs::PullTurns::sequence_makes))]
pub(crate) fn sequenced(
    alloc: Global,
    transducer: Proper,
    source: Proper,
) -> Result<Next<State>, NoMemory>
    ensures { IfOk result (λ r. Takes (with_stages (plain transducer.value) (λ stages. make_pull (plain transducer.value) (fresh stages) (plain source.value) (λ m. give (M.cell m)))) r) }
{
    let what = Stages::of(alloc, &transducer)?;
    match what {
        Opened::Thrown(why) => Ok(not_pulled(why, transducer, source)),
        Opened::Stages(stages) => {
            let next = makes_pull(alloc, AtPart::Cell, transducer, stages, source)?;
            Ok(next)
        }
    }
}

/// There are no stages.
fn not_pulled(why: Thrown, transducer: Proper, source: Proper) -> Next<State>
    ensures { Takes (throw why) result }
{
    throws(why)
}

/// Makes the part that pulls from the collection with the states that are kept.
#[tactic(auto, using(crate::proofs::PullTurns::pull_too_long, crate::proofs::PullTurns::pull_makes, crate::proofs::PullTurns::pull_takes))]
fn makes_pull(
    alloc: Global,
    next: AtPart,
    transducer: Proper,
    stages: Stages,
    source: Proper,
) -> Result<Next<State>, NoMemory>
    requires { IsThrough (plain transducer.value) (stages_in stages) }
    ensures { IfOk result (λ r. Takes (make_pull (plain transducer.value) (states_in stages) (plain source.value) (λ m. left_part next m)) r) }
{
    let both = two_members(alloc, transducer, source)?;
    let grown = stages.add_states(both)?;
    match grown {
        Grown::TooMany => Ok(not_made(next)),
        Grown::All(all) => {
            let turn = makes_term(alloc, next, all)?;
            Ok(turn)
        }
    }
}

/// The transducer and the collection.
#[tactic(auto, using(crate::proofs::PullTurns::two_gathered, crate::proofs::PullTurns::one_gathered))]
fn two_members(alloc: Global, first: Proper, second: Proper) -> Result<Gathered, NoMemory>
    ensures { IfOk result (λ all. all.items.items ≡ first.value ∷ second.value ∷ []) }
{
    let one = Gathered::none(alloc).and(first)?;
    let both = one.and(second)?;
    Ok(both)
}

/// There are more states than arguments may be.
fn not_made(next: AtPart) -> Next<State>
    ensures { Takes (throw Overflow) result }
{
    let_go(next);
    throws(Thrown::Overflow)
}

#[tactic(auto, using(crate::proofs::PullTurns::term_makes, crate::proofs::PullTurns::term_fits))]
fn makes_term(alloc: Global, next: AtPart, all: Gathered) -> Result<Next<State>, NoMemory>
    requires { takes O.Pull (sights (M.values (plains all.items.items))) ≡ true }
    ensures { IfOk result (λ r. Takes (make K.Lazy (record { op = O.Pull; args = plains all.items.items }) (λ m. left_part next m)) r) }
{
    let args = all.listed(alloc)?;
    Ok(makes(next, pull_term(args)))
}

/// The term of a pull.
#[tactic(auto, using(crate::proofs::PullTurns::term_formed_by))]
fn pull_term(args: ProperList) -> ProperTerm
    requires { takes O.Pull (sights (M.values (plains args.items))) ≡ true }
    ensures { plain_term result.term ≡ record { op = O.Pull; args = plains args.items } }
{
    ProperTerm {
        term: Term {
            op: Op::Pull,
            args: args.items,
        },
    }
}

/// The work of a part begins.
#[tactic(auto, using(seq_values::proofs::WellFormedLemmas::term_args, crate::proofs::PullTurns::work_takes))]
pub(crate) fn work_begins(alloc: Global, work: Work) -> Result<Next<State>, NoMemory>
    ensures { IfOk result (λ r. Takes (pull_row work.enough (plains work.term.args)) r) }
{
    let Work { term, enough } = work;
    let args = ProperList { items: term.args };
    let next = pull_begins(alloc, &args, enough)?;
    Ok(without(next, args))
}

/// The same, and the arguments are let go.
fn without(next: Next<State>, args: ProperList) -> Next<State>
    ensures { result ≡ next }
{
    next
}

/// The transducer and the collection are looked at.
#[tactic(auto, using(crate::proofs::PullTurns::two_arguments, crate::proofs::PullTurns::first_arguments, crate::proofs::PullTurns::pull_thrown, crate::proofs::PullTurns::pull_opened))]
fn pull_begins(alloc: Global, args: &ProperList, enough: u32) -> Result<Next<State>, NoMemory>
    requires { takes O.Pull (sights (M.values (plains args.now.items))) ≡ true }
    ensures { IfOk result (λ r. Takes (pull_row enough (plains args.now.items)) r) }
{
    let transducer = args.at(0)?;
    let source = args.at(1)?;
    let what = Stages::of(alloc, &transducer)?;
    match what {
        Opened::Thrown(why) => Ok(not_pulled(why, transducer, source)),
        Opened::Stages(stages) => {
            let pull = Pull { transducer, enough };
            let next = pull_opens(alloc, args, pull, stages, source)?;
            Ok(next)
        }
    }
}

/// The states that were kept are put into the stages, and the seq of the collection is taken.
#[tactic(auto, using(crate::proofs::PullTurns::kept_fit, crate::proofs::PullTurns::still_through, crate::proofs::PullTurns::starts_same))]
fn pull_opens(
    alloc: Global,
    args: &ProperList,
    pull: Pull,
    stages: Stages,
    source: Proper,
) -> Result<Next<State>, NoMemory>
    requires fit { takes O.Pull (sights (M.values (plains args.now.items))) ≡ true }
    requires args { args.now.items ≡ pull.transducer.value ∷ source.value ∷ drop 2 args.now.items }
    requires through { IsThrough (plain pull.transducer.value) (stages_in stages) }
    ensures { IfOk result (λ r. Takes (seq (plain source.value) (pull_at pull.enough (plain pull.transducer.value) (stages_in stages) (replaced (states_in stages) (plains (drop 2 args.now.items))) [])) r) }
{
    let stages = stages.with_states(alloc, args, 2)?;
    let outputs = Outputs::none(alloc);
    let pulling = Pulling {
        pull,
        stages,
        outputs,
    };
    let next = pull_starts(alloc, pulling, source)?;
    Ok(next)
}

/// The seq of the collection is taken.
fn pull_starts(alloc: Global, pulling: Pulling, source: Proper) -> Result<Next<State>, NoMemory>
    ensures { IfOk result (λ r. Takes (seq (plain source.value) (λ s. left_seq (Q.Pull pulling) s)) r) }
{
    match seek(source) {
        Sought::Now(what) => pull_seen(alloc, pulling, what),
        Sought::Ask(value) => Ok(seeks(AtSeq::Pull(pulling), value)),
    }
}

/// The seq of the collection, or of what is left of it, is there.
#[tactic(auto, using(crate::proofs::PullTurns::nothing_left, crate::proofs::PullTurns::element_there))]
pub(crate) fn pull_seen(
    alloc: Global,
    pulling: Pulling,
    what: Seen,
) -> Result<Next<State>, NoMemory>
    ensures { IfOk result (λ r. Takes (left_seq (Q.Pull pulling) (seen what)) r) }
{
    match what {
        Seen::Nil => {
            let next = ends(alloc, pulling)?;
            Ok(next)
        }
        Seen::At(place) => Ok(visits(AtStep::Pull { pulling, place })),
    }
}

/// The own step for an element was taken: it enters the stages.
#[tactic(auto, using(crate::proofs::PullTurns::step_goes, crate::proofs::PullTurns::step_through))]
pub(crate) fn pull_step(
    alloc: Global,
    pulling: Pulling,
    place: Cursor,
) -> Result<Next<State>, NoMemory>
    ensures { IfOk result (λ r. Takes (left_step (T.Pull pulling place)) r) }
{
    let split = split_cursor(place)?;
    let Split { first, rest } = split;
    let Pulling {
        pull,
        stages,
        outputs,
    } = pulling;
    let turn = Gathering::of_input(alloc, stages, outputs, first)?;
    let next = pull_goes(alloc, turn, pull, rest)?;
    Ok(next)
}

/// The stages are in the midst of an element, or it is through.
#[tactic(auto, using(crate::proofs::PullTurns::rest_through, crate::proofs::PullTurns::asked_through, crate::proofs::PullTurns::asks_of))]
pub(crate) fn pull_goes(
    alloc: Global,
    turn: GatheringTurn,
    pull: Pull,
    rest: Rest,
) -> Result<Next<State>, NoMemory>
    requires asked { IsGatheringAsked turn }
    requires through { TurnThrough (plain pull.transducer.value) turn }
    ensures { IfOk result (λ r. Takes (gathering_node turn (pull_on pull.enough (plain pull.transducer.value) (gathering_stages turn) (rested rest))) r) }
{
    match turn {
        GatheringTurn::Asks(next) => Ok(asks_midway(next, pull, rest)),
        GatheringTurn::Throw(why) => Ok(stopped(why, pull, rest)),
        GatheringTurn::Rest { stages, outputs } => pulled(
            alloc,
            Pulling {
                pull,
                stages,
                outputs,
            },
            rest,
        ),
    }
}

/// A stage threw.
fn stopped(why: Thrown, pull: Pull, rest: Rest) -> Next<State>
    ensures { Takes (throw why) result }
{
    let_go(rest);
    throws(why)
}

/// The stages wait in the midst of an element.
#[tactic(auto, using(crate::proofs::PullTurns::midway_waits))]
fn asks_midway(next: Next<Gathering>, pull: Pull, rest: Rest) -> Next<State>
    requires asked { IsAsked (waiting_for next.state.waiting) next.turn }
    requires through { IsThrough (plain pull.transducer.value) (waiting_stages next.state.waiting) }
    ensures { Takes (gathering_node (GT.Asks next) (pull_on pull.enough (plain pull.transducer.value) (waiting_stages next.state.waiting) (rested rest))) result }
{
    let Next {
        state: gathering,
        turn,
    } = next;
    Next {
        state: State::Stages(AtStages::Pull(Midway {
            gathering,
            pull,
            rest,
        })),
        turn,
    }
}

/// An element is through: the pull ends, where all is done or there are outputs enough, or goes on.
#[tactic(auto, using(crate::proofs::PullTurns::all_done, crate::proofs::PullTurns::outputs_enough, crate::proofs::PullTurns::outputs_few))]
fn pulled(alloc: Global, pulling: Pulling, rest: Rest) -> Result<Next<State>, NoMemory>
    ensures { IfOk result (λ r. Takes (pull_on pulling.pull.enough (plain pulling.pull.transducer.value) (stages_in pulling.stages) (rested rest) (states_in pulling.stages) (gathers (plains pulling.outputs.items.items)) pulling.stages.done) r) }
{
    if pulling.stages.is_done() {
        let_go(rest);
        return ends(alloc, pulling);
    }
    if pulling.outputs.len() >= pulling.pull.enough as usize {
        return stops(alloc, pulling, rest);
    }
    goes_on(alloc, pulling, rest)
}

/// There are outputs enough: a part is made for what is left.
fn stops(alloc: Global, pulling: Pulling, rest: Rest) -> Result<Next<State>, NoMemory>
    ensures { IfOk result (λ r. Takes (pull_stops (plain pulling.pull.transducer.value) (states_in pulling.stages) (plains pulling.outputs.items.items) (rested rest)) r) }
{
    let source = rest_value(alloc, rest)?;
    let Pulling {
        pull,
        stages,
        outputs,
    } = pulling;
    let next = makes_pull(
        alloc,
        AtPart::Pulled(outputs),
        pull.transducer,
        stages,
        source,
    )?;
    Ok(next)
}

/// The seq of what is left is taken.
fn goes_on(alloc: Global, pulling: Pulling, rest: Rest) -> Result<Next<State>, NoMemory>
    ensures { IfOk result (λ r. Takes (seq (rested rest) (λ t. left_seq (Q.Pull pulling) t)) r) }
{
    match seek_rest(rest) {
        Sought::Now(what) => pull_seen(alloc, pulling, what),
        Sought::Ask(value) => Ok(seeks(AtSeq::Pull(pulling), value)),
    }
}

/// The collection is at its end, or all is done: the stages are completed.
fn ends(alloc: Global, pulling: Pulling) -> Result<Next<State>, NoMemory>
    ensures { IfOk result (λ r. Takes (pull_ends (stages_in pulling.stages) (states_in pulling.stages) (plains pulling.outputs.items.items)) r) }
{
    let Pulling {
        pull,
        stages,
        outputs,
    } = pulling;
    let_go(pull);
    let turn = Gathering::completion(alloc, stages, outputs)?;
    let next = ends_goes(alloc, turn)?;
    Ok(next)
}

/// The completion goes on, or is through.
pub(crate) fn ends_goes(alloc: Global, turn: GatheringTurn) -> Result<Next<State>, NoMemory>
    requires { IsGatheringAsked turn }
    ensures { IfOk result (λ r. Takes (gathering_node turn pull_over) r) }
{
    match turn {
        GatheringTurn::Asks(next) => Ok(asks_ends(next)),
        GatheringTurn::Throw(why) => Ok(throws(why)),
        GatheringTurn::Rest { stages, outputs } => gives_outputs(alloc, stages, outputs),
    }
}

/// The completion waits.
#[tactic(auto, using(crate::proofs::PullTurns::end_waits))]
fn asks_ends(next: Next<Gathering>) -> Next<State>
    requires { IsAsked (waiting_for next.state.waiting) next.turn }
    ensures { Takes (gathering_node (GT.Asks next) pull_over) result }
{
    let Next { state, turn } = next;
    Next {
        state: State::Stages(AtStages::PullEnd(state)),
        turn,
    }
}

/// The completion is through.
fn gives_outputs(alloc: Global, stages: Stages, outputs: Outputs) -> Result<Next<State>, NoMemory>
    ensures { IfOk result (λ r. Takes (last_outputs (plains outputs.items.items)) r) }
{
    let_go(stages);
    let next = gives_last(alloc, outputs)?;
    Ok(next)
}
