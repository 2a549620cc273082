//! `cons` and `conj`.
ghost use Rattle.std.specs.Prelude.{◌≡◌, ◌<◌, ◌+◌, [], ◌∷◌, length, drop, IfOk};
ghost use Rattle.lazy_rows.specs.Walks.{cons_call, with_one_more, conj_each, conj_call};
ghost use Rattle.seq_plan.specs.Plan.{give};
ghost use Rattle.seq_turns.specs.Making.{Makes};
ghost use Rattle.seq_turns.specs.Seen.{seen};
ghost use Rattle.seq_values.specs.Model as M;
ghost use Rattle.seq_values.specs.Plain.{plain, plains};
ghost use Rattle.walk_rules.specs.Left.{left_seq, Takes};
ghost use Rattle.walk_rules.specs.declared.state.AtSeq.TheVariants as Q;

use crate::arguments::pair;
use crate::listed::Shape;
use crate::resuming::start;
use crate::shapes::shape;
use crate::state::{AtSeq, State};
use crate::ways::{ends, ends_made, fails};
use seq_base::Thrown;
use seq_turns::{
    Made, Next, Proper, ProperList, Seen, one_more, part_of, put_first, seen_value, vector_made,
};
use seq_vector::NoMemory;
use std::alloc::Global;

/// `cons`
#[tactic(auto, using(crate::proofs::Joins::cons_others, crate::proofs::Joins::cons_two))]
pub(crate) fn begin_cons(alloc: Global, args: ProperList) -> Result<Next<State>, NoMemory>
    ensures { IfOk result (λ r. Takes (cons_call (plains args.items)) r) }
{
    match pair(args)? {
        None => Ok(fails(Thrown::Arity)),
        Some((first, rest)) => {
            let whole = put_first(alloc, first, rest)?;
            Ok(ends_made(whole))
        }
    }
}

/// `conj`
#[tactic(auto, using(crate::proofs::Joins::conj_none, crate::proofs::Joins::conj_one, crate::proofs::Joins::conj_cell, crate::proofs::Joins::conj_another))]
pub(crate) fn begin_conj(alloc: Global, args: ProperList) -> Result<Next<State>, NoMemory>
    ensures { IfOk result (λ r. Takes (conj_call (plains args.items)) r) }
{
    if args.len() == 0 {
        return Ok(ends_empty_vector(args));
    }
    let whole = args.at(0)?;
    if args.len() == 1 {
        return Ok(ends_with(whole, args));
    }
    match part_of(&whole.value) {
        Some(_) => Ok(start(alloc, AtSeq::Conj { args }, whole)?),
        None => Ok(conj_all(alloc, whole, args)?),
    }
}

/// A collection alone is itself.
fn ends_with(whole: Proper, args: ProperList) -> Next<State>
    ensures { Takes (give (plain whole.value)) result }
{
    ends(whole)
}

#[tactic(auto, using(crate::proofs::Joins::empty_made))]
fn ends_empty_vector(args: ProperList) -> Next<State>
    ensures { Takes (give (M.vector M.no_values)) result }
{
    ends_made(vector_made(ProperList::none()))
}

/// The seq of the lazy part is there.
#[tactic(auto, using(crate::proofs::Joins::conj_seen))]
pub(crate) fn conj_at(alloc: Global, args: ProperList, what: Seen) -> Result<Next<State>, NoMemory>
    ensures { IfOk result (λ r. Takes (left_seq (Q.Conj args) (seen what)) r) }
{
    let whole = seen_value(alloc, what)?;
    Ok(conj_all(alloc, whole, args)?)
}

/// All arguments but the first are put into the collection, one after the other.
fn conj_all(alloc: Global, whole: Proper, args: ProperList) -> Result<Next<State>, NoMemory>
    ensures { IfOk result (λ r. Takes (conj_each (plain whole.value) (plains (drop 1 args.items))) r) }
{
    let mut whole = whole;
    for at in 1..args.len() {
        let one = args.at(at)?;
        match with_one(alloc, whole, one)? {
            Made::Value(more) => whole = more,
            Made::Thrown(why) => return Ok(fails(why)),
        }
    }
    Ok(ends(whole))
}

/// One more item of a vector, which is pushed without a copy, or one more element before another collection.
#[tactic(auto, using(crate::proofs::Joins::one_into_nil, crate::proofs::Joins::one_into_vector, crate::proofs::Joins::one_into_another))]
fn with_one(alloc: Global, whole: Proper, item: Proper) -> Result<Made, NoMemory>
    ensures { IfOk result (λ m. Makes (with_one_more (plain whole.value) (plain item.value)) m) }
{
    match shape(whole) {
        Shape::Nil => Ok(put_first(alloc, item, Proper::nil())?),
        Shape::Vector(listed) => Ok(one_more(alloc, listed.depth, listed.items, item)?),
        Shape::Another(value) => Ok(put_first(alloc, item, value)?),
    }
}
