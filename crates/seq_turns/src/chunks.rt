//! The first chunk of a node.
ghost use Rattle.std.specs.Prelude.{◌≡◌, ◌<◌, ◌≤◌, ◌-◌, ◌+ℤ◌, ◌<ℤ◌, ◌≤ℤ◌, int_le, pos, true, take, drop, length, IfOk, IsTrue, IsSome, Some};
ghost use Rattle.seq_plan.specs.Cursors.{stands};
ghost use Rattle.seq_plan.specs.Nodes.{chunk_of, range_at, range_count, range_stop, vector_at, vector_stop, ints_from};
ghost use Rattle.seq_turns.specs.Seen.{chunked, IsBack};
ghost use Rattle.seq_values.specs.Model as M;
ghost use Rattle.seq_values.specs.Plain.{plain, plains};
ghost use Rattle.seq_values.specs.WellFormed.{are_well_formed, is_well_formed, is_well_formed_node};
ghost use Rattle.seq_values.specs.declared.value.Value.TheVariants as V;
ghost use Rattle.seq_values.specs.declared.value.Node.TheVariants as N;

use crate::places::Chunked;
use crate::proper::{Gathered, Proper, ProperList};
use crate::seeking::cursor_value;
use seq_plan::Cursor;
use seq_values::{Held, Node, Value};
use seq_vector::{NoMemory, PVec, Share};
use std::alloc::Global;

/// The elements of a chunk, and what comes after it.
#[derive(Drop)]
struct Chunk {
    items: ProperList,
    rest: Proper,
}

/// The items of a chunk, and what stands behind them.
#[tactic(auto, using(seq_values::proofs::WellFormedLemmas::chunk_each, seq_values::proofs::WellFormedLemmas::chunk_last, crate::proofs::Spans::of_chunk))]
fn chunk_of_items(depth: u32, items: PVec<Value>, rest: Held, size: u32) -> Result<Chunk, NoMemory>
    requires { IsTrue (is_well_formed_node (N.Chunk depth items rest)) }
    ensures { IfOk result (λ c. Some (plains c.items.items, plain c.rest.value) ≡ chunk_of size (plain (V.Node (N.Chunk depth items rest)))) }
{
    let value = rest.get().share()?;
    Ok(Chunk {
        items: ProperList { items },
        rest: Proper { value },
    })
}

/// How many integers the chunk has of a range that stands at `at`: up to the next one that is a multiple of the size above `from`, or to the end.
#[tactic(auto, using(crate::proofs::Spans::range_counted, crate::proofs::Spans::range_stopped, crate::proofs::Spans::range_within))]
fn count_of_range(from: i64, at: i64, end: i64, size: u32) -> u32
    requires begun { int_le from at ≡ true }
    requires within { at <ℤ end }
    requires some { 0 < size }
    ensures count { result ≡ range_count size from at end }
    ensures stop { at +ℤ pos result ≡ range_stop size from at end }
    ensures bound { (at +ℤ pos result) ≤ℤ end }
{
    let done = at.abs_diff(from);
    let left = end.abs_diff(at);
    let next = size as u64 - done % size as u64;
    next.min(left) as u32
}

#[tactic(auto, using(crate::proofs::Spans::ints_more, crate::proofs::Listing::one_longer))]
/// The integer that comes so many after another.
fn nth_integer(at: i64, done: u32, end: i64) -> Proper
    requires { (at +ℤ pos done) <ℤ end }
    ensures { plain result.value ≡ M.int (at +ℤ pos done) }
{
    Proper::of_int(at + done as i64)
}

/// The integers from `at` on, so many. None of them passes `end`.
fn integers(alloc: Global, at: i64, count: u32, end: i64) -> Result<Gathered, NoMemory>
    requires { (at +ℤ pos count) ≤ℤ end }
    ensures { IfOk result (λ all. plains all.items.items ≡ ints_from at count) }
{
    let mut all = Gathered::with_room(alloc, count as usize)?;
    for done in 0..count {
        let one = nth_integer(at, done, end);
        all = all.and(one)?;
    }
    Ok(all)
}

/// What is left of a range.
#[tactic(auto, using(seq_values::proofs::WellFormedLemmas::range_well, seq_values::proofs::WellFormedLemmas::node_well, crate::proofs::Spans::range_goes_on, crate::proofs::Spans::range_is_over))]
fn range_from(from: i64, at: i64, end: i64) -> Proper
    requires { int_le from at ≡ true }
    ensures { plain result.value ≡ range_at from at end }
{
    if at < end {
        Proper {
            value: Value::Node(Node::Range { from, at, end }),
        }
    } else {
        Proper::empty()
    }
}

/// The number that comes so many after another.
fn number_after(at: i64, count: u32, end: i64) -> i64
    requires { (at +ℤ pos count) ≤ℤ end }
    ensures { result ≡ at +ℤ pos count }
{
    at + count as i64
}

/// What is left of a range after so many integers.
#[tactic(auto, using(crate::proofs::Spans::begun_on))]
fn rest_of_range(from: i64, at: i64, count: u32, end: i64) -> Proper
    requires begun { int_le from at ≡ true }
    requires within { (at +ℤ pos count) ≤ℤ end }
    ensures { plain result.value ≡ range_at from (at +ℤ pos count) end }
{
    let next = number_after(at, count, end);
    range_from(from, next, end)
}

#[tactic(auto, using(seq_values::proofs::WellFormedLemmas::range_begun, seq_values::proofs::WellFormedLemmas::range_ends))]
fn chunk_of_range(alloc: Global, from: i64, at: i64, end: i64, size: u32) -> Result<Chunk, NoMemory>
    requires well { IsTrue (is_well_formed_node (N.Range from at end)) }
    requires some { 0 < size }
    ensures { IfOk result (λ c. Some (plains c.items.items, plain c.rest.value) ≡ chunk_of size (plain (V.Node (N.Range from at end)))) }
{
    let count = count_of_range(from, at, end, size);
    let all = integers(alloc, at, count, end)?;
    let items = all.listed(alloc)?;
    let rest = rest_of_range(from, at, count, end);
    Ok(Chunk { items, rest })
}

/// Where the chunk ends of a vector's seq that stands at `at`.
#[tactic(auto, using(crate::proofs::Spans::vector_stopped))]
fn stop_of_vector(at: usize, end: usize, size: u32) -> usize
    requires within { at < end }
    requires bound { end ≤ 4294967295 }
    requires some { 0 < size }
    ensures stop { result ≡ vector_stop size at end }
    ensures ahead { at ≤ result }
    ensures inside { result ≤ end }
{
    let size = size as usize;
    (at + (size - at % size)).min(end)
}

/// The items from `at` up to `stop`, shared.
#[tactic(auto, using(crate::proofs::Spans::part_well))]
fn items_between(
    alloc: Global,
    items: &PVec<Value>,
    at: usize,
    stop: usize,
) -> Result<ProperList, NoMemory>
    requires well { IsTrue (are_well_formed items.now) }
    requires inside { (at ≤ stop) × (stop ≤ length items.now) }
    ensures { IfOk result (λ part. part.items ≡ take (stop - at) (drop at items.now)) }
{
    match items.window(alloc, at, stop - at)? {
        Some(items) => Ok(ProperList { items }),
        None => unreachable!(),
    }
}

/// No item is left.
fn none_left(items: PVec<Value>) -> Proper
    ensures { plain result.value ≡ M.empty }
{
    Proper::empty()
}

/// The items of a vector from `at` on.
#[tactic(auto, using(seq_values::proofs::WellFormedLemmas::vec_seq_at, seq_values::proofs::WellFormedLemmas::node_well, crate::proofs::Spans::vector_goes_on, crate::proofs::Spans::vector_is_over))]
fn vector_from(depth: u32, items: PVec<Value>, done: u32, at: usize) -> Proper
    requires well { IsTrue (is_well_formed_node (N.VecSeq depth items done)) }
    requires bound { at ≤ 4294967295 }
    ensures { plain result.value ≡ vector_at (M.values (plains items)) at }
{
    if at < items.len() {
        Proper {
            value: Value::Node(Node::VecSeq {
                depth,
                items,
                at: at as u32,
            }),
        }
    } else {
        none_left(items)
    }
}

#[tactic(auto, using(seq_values::proofs::WellFormedLemmas::vec_seq_each, crate::proofs::Spans::vector_stands, crate::proofs::Spans::of_vector))]
fn chunk_of_vector(
    alloc: Global,
    depth: u32,
    items: PVec<Value>,
    at: u32,
    size: u32,
) -> Result<Chunk, NoMemory>
    requires well { IsTrue (is_well_formed_node (N.VecSeq depth items at)) }
    requires some { 0 < size }
    ensures { IfOk result (λ c. Some (plains c.items.items, plain c.rest.value) ≡ chunk_of size (plain (V.Node (N.VecSeq depth items at)))) }
{
    let stop = stop_of_vector(at as usize, items.len(), size);
    let part = items_between(alloc, &items, at as usize, stop)?;
    let rest = vector_from(depth, items, at, stop);
    Ok(Chunk { items: part, rest })
}

#[tactic(auto, using(crate::proofs::Spans::no_chunk_of_empty, crate::proofs::Spans::no_chunk_of_cons))]
fn chunk_of_node(alloc: Global, node: Node, size: u32) -> Result<Chunk, NoMemory>
    requires well { IsTrue (is_well_formed_node node) }
    requires chunked { IsSome (chunk_of size (plain (V.Node node))) }
    requires some { 0 < size }
    ensures { IfOk result (λ c. Some (plains c.items.items, plain c.rest.value) ≡ chunk_of size (plain (V.Node node))) }
{
    match node {
        Node::Empty => unreachable!(),
        Node::Cons { .. } => unreachable!(),
        Node::Chunk { depth, items, rest } => chunk_of_items(depth, items, rest, size),
        Node::Range { from, at, end } => chunk_of_range(alloc, from, at, end, size),
        Node::VecSeq { depth, items, at } => chunk_of_vector(alloc, depth, items, at, size),
    }
}

/// The first chunk of a value that is a chunked node.
#[tactic(auto, using(seq_values::proofs::WellFormedLemmas::node_in))]
fn chunk_of_value(alloc: Global, value: Value, size: u32) -> Result<Chunk, NoMemory>
    requires well { IsTrue (is_well_formed value) }
    requires chunked { IsSome (chunk_of size (plain value)) }
    requires some { 0 < size }
    ensures { IfOk result (λ c. Some (plains c.items.items, plain c.rest.value) ≡ chunk_of size (plain value)) }
{
    match value {
        Value::Node(node) => chunk_of_node(alloc, node, size),
        Value::Nil => unreachable!(),
        Value::Bool(_) => unreachable!(),
        Value::Int(_) => unreachable!(),
        Value::Keyword(_) => unreachable!(),
        Value::Text(_) => unreachable!(),
        Value::Vector { .. } => unreachable!(),
        Value::Function(_) => unreachable!(),
        Value::Reduced { .. } => unreachable!(),
        Value::Cell(_) => unreachable!(),
    }
}

/// The first chunk of what a cursor stands for, where that has chunks.
#[tactic(auto, using(crate::proofs::Spans::chunked_as))]
fn whole_chunk(alloc: Global, cursor: Cursor, size: u32) -> Result<Chunked, NoMemory>
    requires chunked { IsSome (chunk_of size (stands cursor)) }
    requires some { 0 < size }
    ensures same { IfOk result (λ r. chunked r ≡ chunk_of size (stands cursor)) }
    ensures back { IfOk result (λ r. IsBack r (stands cursor)) }
{
    let value = cursor_value(alloc, cursor)?;
    let chunk = chunk_of_value(alloc, value.value, size)?;
    Ok(Chunked::Whole {
        items: chunk.items,
        rest: chunk.rest,
    })
}

/// The first chunk of what a cursor stands for, by the size of chunks. The items of a chunk or of a vector are shared; the integers of a range are made.
pub fn chunk_of_cursor(alloc: Global, cursor: Cursor, size: u32) -> Result<Chunked, NoMemory>
    requires { 0 < size }
    ensures same { IfOk result (λ r. chunked r ≡ chunk_of size (stands cursor)) }
    ensures back { IfOk result (λ r. IsBack r (stands cursor)) }
{
    match cursor {
        Cursor::Heads(heads) => Ok(Chunked::Single(Cursor::Heads(heads))),
        Cursor::Items(items) => whole_chunk(alloc, Cursor::Items(items), size),
        Cursor::Range(range) => whole_chunk(alloc, Cursor::Range(range), size),
        Cursor::Vector(left) => whole_chunk(alloc, Cursor::Vector(left), size),
    }
}
