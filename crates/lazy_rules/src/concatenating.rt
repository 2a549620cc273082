//! `concat`.
ghost use Rattle.std.specs.Prelude.{◌≡◌, ◌<◌, ◌≤◌, ℕ, [], ◌∷◌, length, drop, IfOk, None};
ghost use Rattle.lazy_rules.specs.Left.{left_seq, is_lazy_loop, Takes};
ghost use Rattle.lazy_rules.specs.Leading.{leads, IsLeading};
ghost use Rattle.lazy_rules.specs.declared.state.AtSeq.TheVariants as Q;
ghost use Rattle.lazy_rows.specs.Table.{walk_round};
ghost use Rattle.lazy_rows.specs.Terms.{concat_rule, concat_on};
ghost use Rattle.seq_plan.specs.Cursors.{stands};
ghost use Rattle.seq_plan.specs.Nodes.{chunk_of};
ghost use Rattle.seq_turns.specs.Seen.{seen};
ghost use Rattle.seq_turns.specs.Turning.{Silent};
ghost use Rattle.seq_values.specs.Plain.{plains};

use crate::made_terms::{concat_term, first_then};
use crate::state::{AtPart, AtSeq, Collections, State};
use crate::ways::{gives, gives_nil, let_go, makes, seeks};
use seq_plan::Cursor;
use seq_turns::{
    Chunked, Next, Proper, ProperList, Seen, Sought, Split, chunk_of_cursor, rest_value, seek,
    split_cursor,
};
use seq_vector::NoMemory;
use std::alloc::Global;

/// What the collections from a place on begin with, where those without elements that are seen at once are left out.
#[derive(Drop)]
pub(crate) enum Leading {
    /// No collection is left.
    Nothing,
    /// The last one, which isn't looked at.
    Last(Proper),
    /// A node, and where the others begin.
    Node { place: Cursor, at: usize },
    /// A collection that has to be asked for its seq, and where the others begin.
    Asked { value: Proper, at: usize },
}

/// Looks for the first collection from a place on that has elements or has to be asked.
fn find_leading(args: &ProperList, at: usize) -> Result<Leading, NoMemory>
    ensures plan { IfOk result (λ l. (size : ℕ) → leads size args.now.items at l) }
    ensures place { IfOk result (λ l. IsLeading args.now.items l) }
{
    let count = args.len();
    if at >= count {
        return Ok(Leading::Nothing);
    }
    let mut here = at;
    while here + 1 < count {
        let value = args.at(here)?;
        match seek(value) {
            Sought::Now(Seen::Nil) => {}
            Sought::Now(Seen::At(place)) => {
                return Ok(Leading::Node {
                    place,
                    at: here + 1,
                });
            }
            Sought::Ask(value) => {
                return Ok(Leading::Asked {
                    value,
                    at: here + 1,
                });
            }
        }
        here += 1;
    }
    let last = args.at(here)?;
    Ok(Leading::Last(last))
}

/// The collections from a place on, one after the other.
pub(crate) fn concat_from(
    alloc: Global,
    args: ProperList,
    at: usize,
    chunk: u32,
) -> Result<Next<State>, NoMemory>
    requires positive { 0 < chunk }
    ensures { IfOk result (λ r. Takes (concat_rule chunk (plains (drop at args.items))) r) }
{
    let leading = find_leading(&args, at)?;
    match leading {
        Leading::Nothing => {
            let_go(args);
            Ok(gives_nil())
        }
        Leading::Last(value) => {
            let_go(args);
            Ok(gives(value))
        }
        Leading::Node { place, at } => concat_node(alloc, args, at, chunk, place),
        Leading::Asked { value, at } => Ok(seeks(
            AtSeq::Concat(Collections { args, at, chunk }),
            value,
        )),
    }
}

/// The seq of the collection before the others is there.
pub(crate) fn concat_at(
    alloc: Global,
    collections: Collections,
    what: Seen,
) -> Result<Next<State>, NoMemory>
    ensures { IfOk result (λ r. Takes (left_seq (Q.Concat collections) (seen what)) r) }
{
    let Collections { args, at, chunk } = collections;
    match what {
        Seen::Nil => concat_from(alloc, args, at, chunk),
        Seen::At(place) => concat_node(alloc, args, at, chunk, place),
    }
}

/// The elements of a node, a chunk or one, come before those of the others.
fn concat_node(
    alloc: Global,
    args: ProperList,
    at: usize,
    chunk: u32,
    place: Cursor,
) -> Result<Next<State>, NoMemory>
    requires begun { 0 < at }
    requires positive { 0 < chunk }
    ensures { IfOk result (λ r. Takes (concat_on (stands place) (plains (drop at args.items)) (chunk_of chunk (stands place))) r) }
{
    let chunked = chunk_of_cursor(alloc, place, chunk)?;
    match chunked {
        Chunked::Single(place) => concat_single(alloc, args, at, place),
        Chunked::Whole { items, rest } => {
            let term = concat_term(alloc, rest, args, at)?;
            Ok(makes(AtPart::Items(items), term))
        }
    }
}

#[tactic(auto, using(crate::proofs::ConcatTurns::single_first))]
fn concat_single(
    alloc: Global,
    args: ProperList,
    at: usize,
    place: Cursor,
) -> Result<Next<State>, NoMemory>
    requires begun { 0 < at }
    ensures { IfOk result (λ r. Takes (concat_on (stands place) (plains (drop at args.items)) None) r) }
{
    let Split { first, rest } = split_cursor(place)?;
    let rest = rest_value(alloc, rest)?;
    let term = concat_term(alloc, rest, args, at)?;
    Ok(first_then(first, term))
}
