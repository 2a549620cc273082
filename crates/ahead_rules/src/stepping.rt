//! `pmap`, and the steps in which its answers are asked while further calls are started.
ghost use Rattle.std.specs.Prelude.{pos, ◌+◌, ◌≡◌, [], ◌∷◌, IfOk};
ghost use Rattle.seq_base.specs.declared.thrown.Thrown.TheVariants.{BadType};
ghost use Rattle.seq_plan.specs.Cursors.{stands};
ghost use Rattle.seq_plan.specs.Lists.{lazily};
ghost use Rattle.seq_plan.specs.Nodes.{rest_of, give_value};
ghost use Rattle.seq_plan.specs.Plan.{ask, throw};
ghost use Rattle.seq_turns.specs.Seen.{seen};
ghost use Rattle.seq_turns.specs.Turning.{Takes};
ghost use Rattle.seq_values.specs.Model as M;
ghost use Rattle.seq_values.specs.Model.{◌&◌};
ghost use Rattle.seq_values.specs.Plain.{plain};
ghost use Rattle.seq_values.specs.declared.words.Op.TheVariants as O;
ghost use Rattle.ahead_rows.specs.Table.{step, step_rule, pmap_rule};
ghost use Rattle.ahead_rules.specs.Left.{running, left_seq, left_value, left_part, stepped};
ghost use Rattle.ahead_rules.specs.declared.state.AtSeq.TheVariants as Q;
ghost use Rattle.ahead_rules.specs.declared.state.AtValue.TheVariants as V;
ghost use Rattle.ahead_rules.specs.declared.state.AtPart.TheVariants as P;

use crate::handing::{after_first, as_part, four, given_seq, makes_part};
use crate::state::{AtPart, AtSeq, AtValue, Sequence, State, Stepping};
use seq_base::Thrown;
use seq_plan::Cursor;
use seq_turns::{
    Next, Proper, ProperList, Seen, Sought, needs, seek, seek_rest, seeks, split_cursor, throws,
};
use seq_values::{CellId, Kind, Op};
use seq_vector::NoMemory;
use std::alloc::Global;

/// `pmap`: the sequence of the calls is made.
pub(crate) fn pmap_begins(
    alloc: Global,
    processors: u32,
    function: Proper,
    source: Proper,
) -> Result<Next<State>, NoMemory>
    ensures { IfOk result (λ r. Takes running (pmap_rule processors (plain function.value) (plain source.value)) r) }
{
    let args = ProperList::two(alloc, function, source)?;
    Ok(makes_part(AtPart::PmapRets { processors }, Kind::Lazy, Op::Rets, args))
}

/// The sequence of the calls was made: what is left of it two more than the processors further on is made.
pub(crate) fn pmap_calls_made(
    alloc: Global,
    processors: u32,
    id: CellId,
) -> Result<Next<State>, NoMemory>
    ensures { IfOk result (λ r. Takes running (left_part (P.PmapRets processors) id) r) }
{
    let count = calls_ahead(processors);
    let part = Proper::of_part(id);
    let args = ProperList::two(alloc, count, part)?;
    Ok(makes_part(AtPart::PmapDrop { rets: id }, Kind::Lazy, Op::Drop, args))
}

/// How many calls run ahead: two more than the processors.
fn calls_ahead(processors: u32) -> Proper
    ensures { plain result.value ≡ M.int (pos (2 + processors)) }
{
    Proper::of_int(2 + processors as i64)
}

/// Both sequences were made: the first step is.
pub(crate) fn pmap_drop_made(
    alloc: Global,
    rets: CellId,
    id: CellId,
) -> Result<Next<State>, NoMemory>
    ensures { IfOk result (λ r. Takes running (left_part (P.PmapDrop rets) id) r) }
{
    let values = Sequence::of_part(rets);
    let further = Sequence::of_part(id);
    let stepping = Stepping {
        values,
        further,
        before: None,
    };
    let next = steps(alloc, stepping)?;
    Ok(next)
}

/// Goes on to the next answer: the `seq` of the parts that are called ahead is taken.
fn steps(alloc: Global, stepping: Stepping) -> Result<Next<State>, NoMemory>
    ensures { IfOk result (λ r. Takes running (step (plain stepping.values.value) (plain stepping.further.value) (stepped stepping.before)) r) }
{
    let value = stepping.values.share()?;
    let sought = seek(value);
    match sought {
        Sought::Now(what) => first_at(alloc, stepping, what),
        Sought::Ask(value) => Ok(seeks(State::Seq(AtSeq::First { stepping }), value)),
    }
}

/// The seq of the parts that are called ahead is there.
pub(crate) fn first_at(
    alloc: Global,
    stepping: Stepping,
    what: Seen,
) -> Result<Next<State>, NoMemory>
    ensures { IfOk result (λ r. Takes running (left_seq (Q.First stepping) (seen what)) r) }
{
    match what {
        Seen::Nil => nothing_ahead(alloc, stepping),
        Seen::At(place) => first_place(alloc, stepping, place),
    }
}

/// Nothing is called ahead any more: the next step has no element.
fn nothing_ahead(alloc: Global, stepping: Stepping) -> Result<Next<State>, NoMemory>
    ensures { IfOk result (λ r. Takes running (left_seq (Q.First stepping) M.nil) r) }
{
    let first = Proper::nil();
    let next = others_at(alloc, first, stepping, Seen::Nil)?;
    Ok(next)
}

/// The `seq` of what comes after the first of them is taken.
fn first_place(alloc: Global, stepping: Stepping, place: Cursor) -> Result<Next<State>, NoMemory>
    ensures { IfOk result (λ r. Takes running (left_seq (Q.First stepping) (stands place)) r) }
{
    let parts = split_cursor(place)?;
    let first = parts.first;
    let sought = seek_rest(parts.rest);
    match sought {
        Sought::Now(what) => others_at(alloc, first, stepping, what),
        Sought::Ask(value) => Ok(seeks(State::Seq(AtSeq::Others { first, stepping }), value)),
    }
}

/// The seq of what comes after the first is there: the next step is made.
pub(crate) fn others_at(
    alloc: Global,
    first: Proper,
    stepping: Stepping,
    what: Seen,
) -> Result<Next<State>, NoMemory>
    ensures { IfOk result (λ r. Takes running (left_seq (Q.Others first stepping) (seen what)) r) }
{
    let others = given_seq(alloc, what)?;
    let Stepping {
        values,
        further,
        before,
    } = stepping;
    let values = values.proper();
    let further = further.proper();
    let args = four(alloc, first, others, values, further)?;
    let after = after_answer(before);
    Ok(makes_part(after, Kind::Lazy, Op::Step, args))
}

/// Where the step stands when its part was made.
fn after_answer(before: Option<Proper>) -> AtPart
    ensures { left_part result ≡ stepped before }
{
    match before {
        None => AtPart::Cell,
        Some(first) => AtPart::One { first },
    }
}

/// A step: the `seq` of what is further on starts a further call.
pub(crate) fn step_begins(
    alloc: Global,
    element: Proper,
    others: Sequence,
    values: Sequence,
    further: Proper,
) -> Result<Next<State>, NoMemory>
    ensures { IfOk result (λ r. Takes running (step_rule (plain element.value) (plain others.value) (plain values.value) (plain further.value)) r) }
{
    let sought = seek(further);
    match sought {
        Sought::Now(what) => step_at(alloc, element, others, values, what),
        Sought::Ask(value) => Ok(seeks(
            State::Seq(AtSeq::Step {
                element,
                others,
                values,
            }),
            value,
        )),
    }
}

/// The seq of what is further on is there.
pub(crate) fn step_at(
    alloc: Global,
    element: Proper,
    others: Sequence,
    values: Sequence,
    what: Seen,
) -> Result<Next<State>, NoMemory>
    ensures { IfOk result (λ r. Takes running (left_seq (Q.Step element others values) (seen what)) r) }
{
    match what {
        Seen::Nil => step_ends(alloc, element, others, values),
        Seen::At(place) => step_place(alloc, element, others, values, place),
    }
}

fn step_place(
    alloc: Global,
    element: Proper,
    others: Sequence,
    values: Sequence,
    place: Cursor,
) -> Result<Next<State>, NoMemory>
    ensures { IfOk result (λ r. Takes running (left_seq (Q.Step element others values) (stands place)) r) }
{
    let part = as_part(element);
    match part {
        None => Ok(no_element(others, values, place)),
        Some(id) => step_asks(alloc, id, others, values, place),
    }
}

/// No further call is started: what is left is asked as it is wanted.
fn step_ends(
    alloc: Global,
    element: Proper,
    others: Sequence,
    values: Sequence,
) -> Result<Next<State>, NoMemory>
    ensures { IfOk result (λ r. Takes running (lazily O.Derefs (plain values.value ∷ [])) r) }
{
    let source = values.proper();
    let args = ProperList::one(alloc, source)?;
    Ok(makes_part(AtPart::Cell, Kind::Lazy, Op::Derefs, args))
}

/// The element is no part.
fn no_element(others: Sequence, values: Sequence, place: Cursor) -> Next<State>
    ensures { Takes running (throw BadType) result }
{
    throws(State::Over, Thrown::BadType)
}

/// The element's part is asked.
fn step_asks(
    alloc: Global,
    id: CellId,
    others: Sequence,
    values: Sequence,
    place: Cursor,
) -> Result<Next<State>, NoMemory>
    ensures { IfOk result (λ r. Takes running (ask id (λ y. step (plain others.value) (rest_of (stands place)) (λ m. give_value (M.cons (y & M.no_values) (M.cell m))))) r) }
{
    let_go(values);
    let further = after_first(alloc, place)?;
    Ok(needs(State::Value(AtValue::Step { others, further }), id))
}

/// A sequence that is not needed any more.
fn let_go(sequence: Sequence) {}

/// The element's part was asked.
pub(crate) fn step_answered(
    alloc: Global,
    others: Sequence,
    further: Sequence,
    answer: Proper,
) -> Result<Next<State>, NoMemory>
    ensures { IfOk result (λ r. Takes running (left_value (V.Step others further) (plain answer.value)) r) }
{
    let stepping = Stepping {
        values: others,
        further,
        before: Some(answer),
    };
    let next = steps(alloc, stepping)?;
    Ok(next)
}
