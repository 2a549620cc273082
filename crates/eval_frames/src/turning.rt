//! The turns of rules.
ghost use Rattle.std.specs.Prelude.{◌≡◌, ◌+◌, IfOk, IsTrue};
ghost use Rattle.seq_base.specs.declared.thrown.Thrown.TheVariants as E;
ghost use Rattle.eval_frames.specs.Frames.{ground, beneath, ready_left, asking_plan};
ghost use Rattle.eval_frames.specs.Leads.{Stands, Comes, Leads};
ghost use Rattle.eval_frames.specs.Weights.{rest_weight};
ghost use Rattle.seq_plan.specs.Plan.{visit, ask, seq, call, then, done, got};
ghost use Rattle.seq_plan.specs.Turns.{node};
ghost use Rattle.seq_turns.specs.Seen.{NotNow};
ghost use Rattle.seq_turns.specs.Turning.{Takes, IsStep, awaited, a_seq, a_value, a_part};
ghost use Rattle.seq_values.specs.Plain.{plain, plains};
ghost use Rattle.seq_values.specs.WellFormed.{is_well_formed, are_well_formed};
ghost use Rattle.seq_values.specs.WellFormedTerms.{is_well_formed_term, is_well_formed_turn};

use crate::calls::calls;
use crate::frames::{let_go, paid, pushed, stopped, tells};
use crate::rules::Rules;
use crate::state::{
    Advance, Asker, Asking, Called, Code, Event, Frame, Maker, Now, Parting, ProperTerm, Ready,
    Rest, Runner, Seeking, Stepping,
};
use seq_base::Thrown;
use seq_turns::{Next, Proper, ProperList, part_of};
use seq_values::{Answer, CellId, Turn, Value};
use seq_vector::NoMemory;
use std::alloc::Global;

/// A rule's own step.
fn visits<R: Rules>(code: &Code, rule: Stepping<R>, rest: Rest<R>) -> Event<R>
    ensures { Leads (ground R.running R.table code.now) rest.left (visit (then (R.running.left rule.state done) (beneath (ground R.running R.table code.now) rest))) (rest_weight code.now rest) result }
{
    if rest.left == 0 {
        let_go(rule);
        return stopped(rest, Thrown::Steps);
    }
    Event::Went(Runner {
        now: Now::Turn(Ready::Done(rule)),
        rest: paid(rest),
    })
}

/// A rule asks a part, which takes an own step.
pub(crate) fn asks<R: Rules>(
    code: &Code,
    cell: CellId,
    asking: Asking<R>,
    rest: Rest<R>,
) -> Event<R>
    ensures { Leads (ground R.running R.table code.now) rest.left (ask cell (asking_plan (ground R.running R.table code.now) asking (beneath (ground R.running R.table code.now) rest))) (rest_weight code.now rest) result }
{
    if rest.left == 0 {
        let_go(asking);
        return stopped(rest, Thrown::Steps);
    }
    Event::Asks(Asker {
        cell,
        asking,
        rest: paid(rest),
    })
}

/// What has no `seq`, or none that is there at once.
fn misses<R: Rules>(value: Value, rule: Seeking<R>, rest: Rest<R>) -> Event<R>
    ensures { result ≡ Event.Throws E.BadType rest.left }
{
    let_go(value);
    let_go(rule);
    stopped(rest, Thrown::BadType)
}

/// A rule asks for the `seq` of a value that isn't there at once.
fn seeks<R: Rules>(code: &Code, value: Value, rule: Seeking<R>, rest: Rest<R>) -> Event<R>
    requires well { IsTrue (is_well_formed value) }
    requires asks { NotNow (plain value) }
    ensures { Leads (ground R.running R.table code.now) rest.left (seq (plain value) (λ w. then (R.running.left rule.state (got w)) (beneath (ground R.running R.table code.now) rest))) (rest_weight code.now rest) result }
{
    match part_of(&value) {
        Some(id) => {
            let_go(value);
            asks(code, id, Asking::Seq(rule), rest)
        }
        None => misses(value, rule, rest),
    }
}

/// A rule calls a function and waits for its value.
fn applies<R: Rules>(
    code: &Code,
    rule: Called<R>,
    function: Proper,
    args: ProperList,
    rest: Rest<R>,
) -> Result<Event<R>, NoMemory>
    ensures { IfOk result (λ e. Leads (ground R.running R.table code.now) rest.left (call (plain function.value) (plains args.items) (λ y. then (R.running.left rule.state (got y)) (beneath (ground R.running R.table code.now) rest))) (rest_weight code.now rest) e) }
{
    let rest = pushed(code, rest, Frame::Rule(rule))?;
    Ok(calls(code, function, args, rest))
}

/// A rule ends with a value.
fn ends<R: Rules>(code: &Code, state: R, value: Proper, rest: Rest<R>) -> Runner<R>
    ensures { Stands (ground R.running R.table code.now) rest.left (beneath (ground R.running R.table code.now) rest (plain value.value)) (rest_weight code.now rest) result }
{
    let_go(state);
    tells(code, value, rest)
}

/// A rule ends with an error.
fn fails<R: Rules>(state: R, rest: Rest<R>, why: Thrown) -> Event<R>
    ensures { result ≡ Event.Throws why rest.left }
{
    let_go(state);
    stopped(rest, why)
}

/// The turn of a rule.
fn carry<R: Rules>(code: &Code, state: R, turn: Turn, rest: Rest<R>) -> Result<Advance<R>, NoMemory>
    requires waits { R.running.wait_of state ≡ awaited turn }
    requires step { IsStep turn }
    requires well { IsTrue (is_well_formed_turn turn) }
    ensures { IfOk result (λ a. Comes (ground R.running R.table code.now) rest.left (then (node turn (R.running.left state)) (beneath (ground R.running R.table code.now) rest)) (rest_weight code.now rest + 1) a) }
{
    match turn {
        Turn::Need(id) => Ok(Advance::Comes(asks(code, id, Asking::Value(Called { state }), rest))),
        Turn::Seq(value) => Ok(Advance::Comes(seeks(code, value, Seeking { state }, rest))),
        Turn::Visit => Ok(Advance::Comes(visits(code, Stepping { state }, rest))),
        Turn::Apply { function, args } => {
            let event = applies(
                code,
                Called { state },
                Proper { value: function },
                ProperList { items: args },
                rest,
            )?;
            Ok(Advance::Comes(event))
        }
        Turn::Make { kind, term } => Ok(Advance::Comes(Event::Makes {
            kind,
            term: ProperTerm { term },
            maker: Maker::Rule(Parting { state }),
            rest,
        })),
        Turn::Give(value) => Ok(Advance::On(ends(code, state, Proper { value }, rest))),
        Turn::Throw(why) => Ok(Advance::Comes(fails(state, rest, why))),
    }
}

/// The next turn of a rule that is told what it waits for.
fn next_turn<R: Rules>(alloc: Global, ready: Ready<R>) -> Result<Next<R>, NoMemory>
    ensures { IfOk result (λ next. Takes R.running (ready_left R.running ready) next) }
{
    match ready {
        Ready::Begin(rule) => R::turn(alloc, rule.state, Answer::Begin),
        Ready::Done(rule) => R::turn(alloc, rule.state, Answer::Done),
        Ready::Found(rule, found) => R::turn(alloc, rule.state, Answer::Got(found.value)),
        Ready::Got(rule, value) => R::turn(alloc, rule.state, Answer::Got(value.value)),
        Ready::Made(rule, id) => R::turn(alloc, rule.state, Answer::Made(id)),
    }
}

/// A rule takes a turn.
pub(crate) fn take_turn<R: Rules>(
    alloc: Global,
    code: &Code,
    ready: Ready<R>,
    rest: Rest<R>,
) -> Result<Advance<R>, NoMemory>
    ensures { IfOk result (λ a. Comes (ground R.running R.table code.now) rest.left (then (ready_left R.running ready) (beneath (ground R.running R.table code.now) rest)) (rest_weight code.now rest + 1) a) }
{
    let next = next_turn(alloc, ready)?;
    let advance = carry(code, next.state, next.turn, rest)?;
    Ok(advance)
}
