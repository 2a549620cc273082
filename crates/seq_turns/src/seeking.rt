//! What `seq` finds, and the elements of what it found.
ghost use Rattle.std.specs.Prelude.{◌≡◌, ◌<◌, IfOk, IsTrue};
ghost use Rattle.seq_plan.specs.Cursors.{stands, own};
ghost use Rattle.seq_plan.specs.Nodes.{found, now, first_of, rest_of};
ghost use Rattle.seq_turns.specs.Seen.{rested, seen, Finds};
ghost use Rattle.seq_turns.specs.Turning.{IsSeq};
ghost use Rattle.seq_values.specs.Plain.{plain};
ghost use Rattle.seq_values.specs.WellFormed.{is_well_formed, is_well_formed_node};
ghost use Rattle.seq_values.specs.declared.value.Value.TheVariants as V;
ghost use Rattle.seq_values.specs.declared.value.Node.TheVariants as N;

use crate::places::{Rest, Seen, Sought, Split};
use crate::proper::Proper;
use seq_plan::{Cursor, Walked, cursor_at};
use seq_values::{Held, Node, Value};
use seq_vector::{NoMemory, PVec};
use std::alloc::Global;

/// A node with an element, as `seq` gives it.
fn node_seen(node: Node) -> Seen
    requires well { IsTrue (is_well_formed_node node) }
    requires some { 0 < own (plain (V.Node node)) }
    ensures { seen result ≡ plain (V.Node node) }
{
    match cursor_at(node) {
        Some(cursor) => Seen::At(cursor),
        None => unreachable!(),
    }
}

#[tactic(auto, using(crate::proofs::Seeing::cons_owns))]
fn cons_seen(depth: u32, heads: PVec<Value>, rest: Held) -> Seen
    requires { IsTrue (is_well_formed_node (N.Cons depth heads rest)) }
    ensures { seen result ≡ plain (V.Node (N.Cons depth heads rest)) }
{
    node_seen(Node::Cons { depth, heads, rest })
}

#[tactic(auto, using(crate::proofs::Seeing::chunk_owns))]
fn chunk_seen(depth: u32, items: PVec<Value>, rest: Held) -> Seen
    requires { IsTrue (is_well_formed_node (N.Chunk depth items rest)) }
    ensures { seen result ≡ plain (V.Node (N.Chunk depth items rest)) }
{
    node_seen(Node::Chunk { depth, items, rest })
}

#[tactic(auto, using(crate::proofs::Seeing::range_owns))]
fn range_seen(from: i64, at: i64, end: i64) -> Seen
    requires { IsTrue (is_well_formed_node (N.Range from at end)) }
    ensures { seen result ≡ plain (V.Node (N.Range from at end)) }
{
    node_seen(Node::Range { from, at, end })
}

#[tactic(auto, using(crate::proofs::Seeing::vec_seq_owns))]
fn vector_seen(depth: u32, items: PVec<Value>, at: u32) -> Seen
    requires { IsTrue (is_well_formed_node (N.VecSeq depth items at)) }
    ensures { seen result ≡ plain (V.Node (N.VecSeq depth items at)) }
{
    node_seen(Node::VecSeq { depth, items, at })
}

#[tactic(auto, using(crate::proofs::Seeing::found_cons, crate::proofs::Seeing::found_chunk, crate::proofs::Seeing::found_range, crate::proofs::Seeing::found_vec_seq))]
fn node_sought(node: Node) -> Seen
    requires { IsTrue (is_well_formed_node node) }
    ensures { found (plain (V.Node node)) ≡ now (seen result) }
{
    match node {
        Node::Empty => Seen::Nil,
        Node::Cons { depth, heads, rest } => cons_seen(depth, heads, rest),
        Node::Chunk { depth, items, rest } => chunk_seen(depth, items, rest),
        Node::Range { from, at, end } => range_seen(from, at, end),
        Node::VecSeq { depth, items, at } => vector_seen(depth, items, at),
    }
}

#[tactic(auto, using(crate::proofs::Seeing::found_items, crate::proofs::Seeing::found_none))]
fn items_sought(depth: u32, items: PVec<Value>) -> Seen
    requires { IsTrue (is_well_formed (V.Vector depth items)) }
    ensures { found (plain (V.Vector depth items)) ≡ now (seen result) }
{
    if items.len() == 0 {
        return Seen::Nil;
    }
    vector_seen(depth, items, 0)
}

#[tactic(auto, using(seq_values::proofs::WellFormedLemmas::node_in))]
fn value_sought(value: Value) -> Sought
    requires { IsTrue (is_well_formed value) }
    ensures { Finds result (plain value) }
{
    match value {
        Value::Nil => Sought::Now(Seen::Nil),
        Value::Bool(truth) => Sought::Ask(Proper {
            value: Value::Bool(truth),
        }),
        Value::Int(number) => Sought::Ask(Proper {
            value: Value::Int(number),
        }),
        Value::Keyword(name) => Sought::Ask(Proper {
            value: Value::Keyword(name),
        }),
        Value::Text(text) => Sought::Ask(Proper {
            value: Value::Text(text),
        }),
        Value::Vector { depth, items } => Sought::Now(items_sought(depth, items)),
        Value::Function(function) => Sought::Ask(Proper {
            value: Value::Function(function),
        }),
        Value::Node(node) => Sought::Now(node_sought(node)),
        Value::Reduced { depth, value } => Sought::Ask(Proper {
            value: Value::Reduced { depth, value },
        }),
        Value::Cell(id) => Sought::Ask(Proper {
            value: Value::Cell(id),
        }),
    }
}

/// What `seq` of a value finds.
pub fn seek(value: Proper) -> Sought
    ensures { Finds result (plain value.value) }
{
    value_sought(value.value)
}

/// What `seq` finds of what comes after an element.
#[tactic(auto, using(seq_plan::proofs::CursorLemmas::cursor_found))]
pub fn seek_rest(rest: Rest) -> Sought
    ensures { Finds result (rested rest) }
{
    match rest {
        Rest::Within(cursor) => Sought::Now(Seen::At(cursor)),
        Rest::Beyond(value) => seek(value),
    }
}

/// The answer of a `seq`.
pub fn seen_of(value: Proper) -> Seen
    requires { IsSeq (plain value.value) }
    ensures { seen result ≡ plain value.value }
{
    match seek(value) {
        Sought::Now(what) => what,
        Sought::Ask(_) => unreachable!(),
    }
}

/// The node of which a cursor stands for the rest, as a value.
pub fn cursor_value(alloc: Global, cursor: Cursor) -> Result<Proper, NoMemory>
    ensures { IfOk result (λ v. plain v.value ≡ stands cursor) }
{
    let value = cursor.value(alloc)?;
    Ok(Proper { value })
}

/// What comes after an element, as a value.
pub fn rest_value(alloc: Global, rest: Rest) -> Result<Proper, NoMemory>
    ensures { IfOk result (λ v. plain v.value ≡ rested rest) }
{
    match rest {
        Rest::Within(cursor) => cursor_value(alloc, cursor),
        Rest::Beyond(value) => Ok(value),
    }
}

/// What `seq` gave, as a value.
pub fn seen_value(alloc: Global, what: Seen) -> Result<Proper, NoMemory>
    ensures { IfOk result (λ v. plain v.value ≡ seen what) }
{
    match what {
        Seen::Nil => Ok(Proper { value: Value::Nil }),
        Seen::At(cursor) => cursor_value(alloc, cursor),
    }
}

/// The first element.
pub fn first_of_cursor(cursor: &Cursor) -> Result<Proper, NoMemory>
    ensures { IfOk result (λ v. plain v.value ≡ first_of (stands cursor.now)) }
{
    let value = cursor.first()?;
    Ok(Proper { value })
}

/// What comes after the first element.
pub fn step_cursor(cursor: Cursor) -> Result<Rest, NoMemory>
    ensures { IfOk result (λ r. rested r ≡ rest_of (stands cursor)) }
{
    match cursor.step()? {
        Walked::Within(cursor) => Ok(Rest::Within(cursor)),
        Walked::Beyond(value) => Ok(Rest::Beyond(Proper { value })),
    }
}

/// The first element, and what comes after it.
pub fn split_cursor(cursor: Cursor) -> Result<Split, NoMemory>
    ensures first { IfOk result (λ s. plain s.first.value ≡ first_of (stands cursor)) }
    ensures rest { IfOk result (λ s. rested s.rest ≡ rest_of (stands cursor)) }
{
    let first = first_of_cursor(&cursor)?;
    let rest = step_cursor(cursor)?;
    Ok(Split { first, rest })
}
