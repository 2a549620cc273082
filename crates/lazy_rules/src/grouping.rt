//! `partition-all`.
ghost use Rattle.std.specs.Prelude.{◌≡◌, [], ◌∷◌, ◌-ℤ◌, pos, ◌<ℤ◌, IfOk};
ghost use Rattle.lazy_rules.specs.Left.{left_seq, left_step, group_on, group_round, group_ends, Takes};
ghost use Rattle.lazy_rules.specs.declared.state.AtSeq.TheVariants as Q;
ghost use Rattle.lazy_rules.specs.declared.state.AtStep.TheVariants as T;
ghost use Rattle.seq_plan.specs.Cursors.{stands};
ghost use Rattle.seq_plan.specs.Lists.{list_of, first_and};
ghost use Rattle.seq_plan.specs.Nodes.{if_nil};
ghost use Rattle.seq_plan.specs.Plan.{seq};
ghost use Rattle.seq_turns.specs.Seen.{seen, rested};
ghost use Rattle.seq_values.specs.Model as M;
ghost use Rattle.seq_values.specs.Plain.{plain, plains};
ghost use Rattle.seq_values.specs.declared.words.Op.TheVariants as O;

use crate::made_terms::count_term;
use crate::state::{AtPart, AtSeq, AtStep, Group, State};
use crate::ways::{gives_nil, let_go, makes, seeks, throws, visits};
use seq_base::Thrown;
use seq_plan::Cursor;
use seq_turns::{
    Gathered, Grown, Next, Proper, Rest, Seen, Sought, Split, rest_value, seek, split_cursor,
};
use seq_values::Op;
use seq_vector::NoMemory;
use std::alloc::Global;

#[tactic(auto, using(crate::proofs::GroupTurns::parts_goes))]
/// The seq of the collection is there.
pub(crate) fn parts_at(group: Group, what: Seen) -> Next<State>
    ensures { Takes (left_seq (Q.Parts group) (seen what)) result }
{
    match what {
        Seen::Nil => {
            let_go(group);
            gives_nil()
        }
        Seen::At(place) => group_visits(group, place),
    }
}

/// A round for the next element.
#[tactic(auto, using(crate::proofs::GroupTurns::round_visits))]
fn group_visits(group: Group, place: Cursor) -> Next<State>
    ensures { Takes (group_round group (stands place)) result }
{
    visits(AtStep::Parts { group, place })
}

#[tactic(auto, using(crate::proofs::GroupTurns::step_goes, crate::proofs::GroupTurns::step_throws))]
/// The own step for an element was taken.
pub(crate) fn parts_step(
    alloc: Global,
    group: Group,
    place: Cursor,
) -> Result<Next<State>, NoMemory>
    ensures { IfOk result (λ r. Takes (left_step (T.Parts group place)) r) }
{
    let Group { size, left, taken } = group;
    let split = split_cursor(place)?;
    let Split { first, rest } = split;
    let grown = taken.grown(first)?;
    match grown {
        Grown::All(taken) => {
            let next = group_goes(alloc, size, left - 1, taken, rest)?;
            Ok(next)
        }
        Grown::TooMany => {
            let_go(rest);
            Ok(throws(Thrown::Overflow))
        }
    }
}

/// An element was taken: the group is full, or what comes after the element tells whether it goes on.
fn group_goes(
    alloc: Global,
    size: i64,
    left: i64,
    taken: Gathered,
    rest: Rest,
) -> Result<Next<State>, NoMemory>
    requires { pos 0 <ℤ size }
    ensures { IfOk result (λ r. Takes (group_on size left (plains taken.items.items) (rested rest)) r) }
{
    if left <= 0 {
        let rest = rest_value(alloc, rest)?;
        return group_full(alloc, size, taken, rest);
    }
    let group = Group { size, left, taken };
    match rest {
        Rest::Within(place) => Ok(group_within(group, place)),
        Rest::Beyond(value) => group_beyond(alloc, group, value),
    }
}

/// More of the same node comes after the element.
#[tactic(auto, using(crate::proofs::GroupTurns::goes_within))]
fn group_within(group: Group, place: Cursor) -> Next<State>
    ensures { Takes (seq (stands place) (λ t. if_nil t (group_ends group (stands place)) (group_round group t))) result }
{
    group_visits(group, place)
}

/// What stands behind the node tells whether the group goes on.
fn group_beyond(alloc: Global, group: Group, value: Proper) -> Result<Next<State>, NoMemory>
    ensures { IfOk result (λ r. Takes (seq (plain value.value) (λ t. if_nil t (group_ends group (plain value.value)) (group_round group t))) r) }
{
    let source = value.share()?;
    match seek(source) {
        Sought::Now(what) => parts_next_at(alloc, group, value, what),
        Sought::Ask(source) => Ok(seeks(AtSeq::PartsNext { group, rest: value }, source)),
    }
}

#[tactic(auto, using(crate::proofs::GroupTurns::next_goes))]
/// The seq of what comes after the last element is there.
pub(crate) fn parts_next_at(
    alloc: Global,
    group: Group,
    rest: Proper,
    what: Seen,
) -> Result<Next<State>, NoMemory>
    ensures { IfOk result (λ r. Takes (left_seq (Q.PartsNext group rest) (seen what)) r) }
{
    match what {
        Seen::Nil => group_short(alloc, group, rest),
        Seen::At(place) => {
            let_go(rest);
            Ok(group_visits(group, place))
        }
    }
}

/// Nothing comes after the last element.
fn group_short(alloc: Global, group: Group, rest: Proper) -> Result<Next<State>, NoMemory>
    ensures { IfOk result (λ r. Takes (group_ends group (plain rest.value)) r) }
{
    let Group { size, taken, .. } = group;
    group_full(alloc, size, taken, rest)
}

#[tactic(auto, using(crate::proofs::GroupTurns::full_makes))]
/// The part for the next group is made, before which the list of this one is to stand.
fn group_full(
    alloc: Global,
    size: i64,
    taken: Gathered,
    rest: Proper,
) -> Result<Next<State>, NoMemory>
    requires { pos 0 <ℤ size }
    ensures { IfOk result (λ r. Takes (first_and (list_of (plains taken.items.items)) O.Parts (M.int size ∷ plain rest.value ∷ [])) r) }
{
    let term = count_term(alloc, Op::Parts, size, rest)?;
    Ok(makes(AtPart::List(taken), term))
}
