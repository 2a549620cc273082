ghost use Rattle.std.specs.Prelude.{◌≡◌, ◌<◌, ◌≤◌, ◌↔◌, ℤ, pos, ◌<ℤ◌, ◌≤ℤ◌, ◌+ℤ◌, length, take, drop, slice_get, Some, IfOk, IfSome, IsSome, IsTrue};
ghost use Rattle.seq_plan.specs.Cursors.{heads_stand, items_stand, range_stand, vector_stand, stands, walked, IsWalkedWell, own, IsFound};
ghost use Rattle.seq_plan.specs.Nodes.{first_of, rest_of, or_empty};
ghost use Rattle.seq_values.specs.Model as M;
ghost use Rattle.seq_values.specs.Plain.{plain, plains};
ghost use Rattle.seq_values.specs.WellFormed.{is_well_formed, is_well_formed_node, are_well_formed};
ghost use Rattle.seq_values.specs.declared.value.Value.TheVariants as V;
ghost use Rattle.seq_values.specs.declared.value.Node.TheVariants as N;

use crate::left::{HeadsLeft, ItemsLeft, RangeLeft, VecLeft};
use seq_values::{Held, Node, Value, chunk_part, cons_part};
use seq_vector::{NoMemory, PVec, Share};
use std::alloc::Global;

/// A node of which some elements are done, and at least one is not. It stands for `rest` of the node, so many times, and no element is copied to go on.
#[derive(Drop)]
pub enum Cursor {
    Heads(HeadsLeft),
    Items(ItemsLeft),
    Range(RangeLeft),
    Vector(VecLeft),
}

/// What comes after the first element: more of the same node, or what stands behind it.
#[derive(Drop)]
pub enum Walked {
    Within(Cursor),
    Beyond(Value),
}

#[tactic(auto, using(crate::proofs::CursorLemmas::own_cons, crate::proofs::CursorLemmas::own_chunk, crate::proofs::CursorLemmas::own_vec_seq))]
/// The cursor at the first element of a node, and `None` exactly where the node has no element.
pub fn cursor_at(node: Node) -> Option<Cursor>
    requires well { IsTrue (is_well_formed_node node) }
    ensures same { IfSome result (λ c. stands c ≡ plain (V.Node node)) }
    ensures exactly { IsSome result ↔ (0 < own (plain (V.Node node))) }
{
    match node {
        Node::Empty => None,
        Node::Cons { depth, heads, rest } => heads_at(depth, heads, rest),
        Node::Chunk { depth, items, rest } => items_at(depth, items, rest),
        Node::Range { from, at, end } => range_at(from, at, end),
        Node::VecSeq { depth, items, at } => vector_at(depth, items, at),
    }
}

fn heads_at(depth: u32, heads: PVec<Value>, rest: Held) -> Option<Cursor>
    requires well { IsTrue (is_well_formed_node (N.Cons depth heads rest)) }
    ensures same { IfSome result (λ c. stands c ≡ heads_stand heads (length heads) rest) }
    ensures exactly { IsSome result ↔ (0 < length heads) }
{
    let left = heads.len();
    if left == 0 {
        return None;
    }
    Some(Cursor::Heads(HeadsLeft {
        depth,
        heads,
        left,
        rest,
    }))
}

fn items_at(depth: u32, items: PVec<Value>, rest: Held) -> Option<Cursor>
    requires well { IsTrue (is_well_formed_node (N.Chunk depth items rest)) }
    ensures same { IfSome result (λ c. stands c ≡ items_stand items 0 rest) }
    ensures exactly { IsSome result ↔ (0 < length items) }
{
    if items.len() == 0 {
        return None;
    }
    Some(Cursor::Items(ItemsLeft {
        depth,
        items,
        done: 0,
        rest,
    }))
}

#[tactic(auto, using(seq_values::proofs::WellFormedLemmas::range_begun))]
fn range_at(from: i64, at: i64, end: i64) -> Option<Cursor>
    requires well { IsTrue (is_well_formed_node (N.Range from at end)) }
    ensures same { IfSome result (λ c. stands c ≡ range_stand from at end) }
    ensures exactly { IsSome result ↔ (at <ℤ end) }
{
    if at < end {
        Some(Cursor::Range(RangeLeft { from, at, end }))
    } else {
        None
    }
}

fn vector_at(depth: u32, items: PVec<Value>, at: u32) -> Option<Cursor>
    requires well { IsTrue (is_well_formed_node (N.VecSeq depth items at)) }
    ensures same { IfSome result (λ c. stands c ≡ vector_stand items at) }
    ensures exactly { IsSome result ↔ (at < length items) }
{
    if (at as usize) < items.len() {
        Some(Cursor::Vector(VecLeft { depth, items, at }))
    } else {
        None
    }
}

impl Cursor {
    /// The first element.
    pub fn first(&self) -> Result<Value, NoMemory>
        ensures same { IfOk result (λ v. plain v ≡ first_of (stands self.now)) }
        ensures well { IfOk result (λ v. IsTrue (is_well_formed v)) }
    {
        match self {
            Cursor::Heads(h) => first_head(h),
            Cursor::Items(i) => first_item(i),
            Cursor::Range(r) => Ok(Value::Int(r.at)),
            Cursor::Vector(v) => first_of_vector(v),
        }
    }

    /// What comes after the first element: `rest`.
    pub fn step(self) -> Result<Walked, NoMemory>
        ensures same { IfOk result (λ w. walked w ≡ rest_of (stands self)) }
        ensures well { IfOk result (λ w. IsWalkedWell w) }
    {
        match self {
            Cursor::Heads(h) => step_heads(h),
            Cursor::Items(i) => step_items(i),
            Cursor::Range(r) => Ok(step_range(r)),
            Cursor::Vector(v) => Ok(step_vector(v)),
        }
    }

    /// The node that it stands for, as a value. It shares what of the node's elements is left.
    pub fn value(&self, alloc: Global) -> Result<Value, NoMemory>
        ensures same { IfOk result (λ v. plain v ≡ stands self.now) }
        ensures well { IfOk result (λ v. IsTrue (is_well_formed v)) }
    {
        match self {
            Cursor::Heads(h) => value_of_heads(alloc, h),
            Cursor::Items(i) => value_of_items(alloc, i),
            Cursor::Range(r) => Ok(value_of_range(r)),
            Cursor::Vector(v) => value_of_vector(v),
        }
    }
}

#[tactic(auto, using(seq_values::proofs::WellFormedLemmas::member_well))]
/// The item at a place, with one more owner.
fn shared_item(items: &PVec<Value>, at: usize) -> Result<Value, NoMemory>
    requires well { IsTrue (are_well_formed items.now) }
    requires inside { at < length items.now }
    ensures same { IfOk result (λ v. Some v ≡ slice_get items.now at) }
    ensures well { IfOk result (λ v. IsTrue (is_well_formed v)) }
{
    match items.get(at) {
        Some(value) => {
            let copy = value.share()?;
            Ok(copy)
        }
        None => unreachable!(),
    }
}

#[tactic(auto, using(crate::proofs::CursorLemmas::first_heads, seq_values::proofs::WellFormedLemmas::cons_each))]
fn first_head(h: &HeadsLeft) -> Result<Value, NoMemory>
    ensures same { IfOk result (λ v. plain v ≡ first_of (heads_stand h.now.heads h.now.left h.now.rest)) }
    ensures well { IfOk result (λ v. IsTrue (is_well_formed v)) }
{
    let first = shared_item(&h.heads, h.left - 1)?;
    Ok(first)
}

#[tactic(auto, using(crate::proofs::CursorLemmas::first_items, seq_values::proofs::WellFormedLemmas::chunk_each))]
fn first_item(i: &ItemsLeft) -> Result<Value, NoMemory>
    ensures same { IfOk result (λ v. plain v ≡ first_of (items_stand i.now.items i.now.done i.now.rest)) }
    ensures well { IfOk result (λ v. IsTrue (is_well_formed v)) }
{
    let first = shared_item(&i.items, i.done)?;
    Ok(first)
}

#[tactic(auto, using(crate::proofs::CursorLemmas::first_vector, seq_values::proofs::WellFormedLemmas::vec_seq_each))]
fn first_of_vector(v: &VecLeft) -> Result<Value, NoMemory>
    ensures same { IfOk result (λ x. plain x ≡ first_of (vector_stand v.now.items v.now.at)) }
    ensures well { IfOk result (λ x. IsTrue (is_well_formed x)) }
{
    let first = shared_item(&v.items, v.at as usize)?;
    Ok(first)
}

#[tactic(auto, using(crate::proofs::CursorLemmas::rest_last_head, crate::proofs::CursorLemmas::rest_heads, seq_values::proofs::WellFormedLemmas::cons_last))]
fn step_heads(h: HeadsLeft) -> Result<Walked, NoMemory>
    ensures same { IfOk result (λ w. walked w ≡ rest_of (heads_stand h.heads h.left h.rest)) }
    ensures well { IfOk result (λ w. IsWalkedWell w) }
{
    if h.left == 1 {
        let rest = h.rest.get().share()?;
        return Ok(Walked::Beyond(or_empty(rest)));
    }
    Ok(Walked::Within(Cursor::Heads(HeadsLeft {
        depth: h.depth,
        heads: h.heads,
        left: h.left - 1,
        rest: h.rest,
    })))
}

#[tactic(auto, using(crate::proofs::CursorLemmas::rest_items, crate::proofs::CursorLemmas::rest_last_item, seq_values::proofs::WellFormedLemmas::chunk_last))]
fn step_items(i: ItemsLeft) -> Result<Walked, NoMemory>
    ensures same { IfOk result (λ w. walked w ≡ rest_of (items_stand i.items i.done i.rest)) }
    ensures well { IfOk result (λ w. IsWalkedWell w) }
{
    if i.done + 1 < i.items.len() {
        return Ok(Walked::Within(Cursor::Items(ItemsLeft {
            depth: i.depth,
            items: i.items,
            done: i.done + 1,
            rest: i.rest,
        })));
    }
    let rest = i.rest.get().share()?;
    Ok(Walked::Beyond(rest))
}

fn next_number(at: i64, end: i64) -> i64
    requires { at <ℤ end }
    ensures { result ≡ at +ℤ pos 1 }
{
    at + 1
}

#[tactic(auto, using(seq_values::proofs::WellFormedLemmas::range_on))]
fn step_range(r: RangeLeft) -> Walked
    ensures same { walked result ≡ rest_of (range_stand r.from r.at r.end) }
    ensures well { IsWalkedWell result }
{
    let at = next_number(r.at, r.end);
    if at < r.end {
        Walked::Within(Cursor::Range(RangeLeft {
            from: r.from,
            at,
            end: r.end,
        }))
    } else {
        Walked::Beyond(Value::Node(Node::Empty))
    }
}

#[tactic(auto, using(crate::proofs::CursorLemmas::rest_vector, crate::proofs::CursorLemmas::rest_last_of_vector, seq_values::proofs::WellFormedLemmas::vec_seq_at))]
fn step_vector(v: VecLeft) -> Walked
    ensures same { walked result ≡ rest_of (vector_stand v.items v.at) }
    ensures well { IsWalkedWell result }
{
    if v.at as usize + 1 < v.items.len() {
        Walked::Within(Cursor::Vector(VecLeft {
            depth: v.depth,
            items: v.items,
            at: v.at + 1,
        }))
    } else {
        Walked::Beyond(Value::Node(Node::Empty))
    }
}

#[tactic(auto, using(crate::proofs::CursorLemmas::plain_cons, seq_values::proofs::WellFormedLemmas::node_well))]
fn value_of_heads(alloc: Global, h: &HeadsLeft) -> Result<Value, NoMemory>
    ensures same { IfOk result (λ v. plain v ≡ heads_stand h.now.heads h.now.left h.now.rest) }
    ensures well { IfOk result (λ v. IsTrue (is_well_formed v)) }
{
    let node = cons_part(alloc, &h.heads, &h.rest, h.depth, h.left)?;
    Ok(Value::Node(node))
}

#[tactic(auto, using(crate::proofs::CursorLemmas::plain_chunk, seq_values::proofs::WellFormedLemmas::node_well))]
fn value_of_items(alloc: Global, i: &ItemsLeft) -> Result<Value, NoMemory>
    ensures same { IfOk result (λ v. plain v ≡ items_stand i.now.items i.now.done i.now.rest) }
    ensures well { IfOk result (λ v. IsTrue (is_well_formed v)) }
{
    let node = chunk_part(alloc, &i.items, &i.rest, i.depth, i.done)?;
    Ok(Value::Node(node))
}

#[tactic(auto, using(seq_values::proofs::WellFormedLemmas::range_well, seq_values::proofs::WellFormedLemmas::node_well))]
fn value_of_range(r: &RangeLeft) -> Value
    ensures same { plain result ≡ range_stand r.now.from r.now.at r.now.end }
    ensures well { IsTrue (is_well_formed result) }
{
    Value::Node(Node::Range {
        from: r.from,
        at: r.at,
        end: r.end,
    })
}

#[tactic(auto, using(seq_values::proofs::WellFormedLemmas::node_well))]
fn value_of_vector(v: &VecLeft) -> Result<Value, NoMemory>
    ensures same { IfOk result (λ x. plain x ≡ vector_stand v.now.items v.now.at) }
    ensures well { IfOk result (λ x. IsTrue (is_well_formed x)) }
{
    let items = v.items.share()?;
    Ok(Value::Node(Node::VecSeq {
        depth: v.depth,
        items,
        at: v.at,
    }))
}

/// `()` in place of nil.
fn or_empty(value: Value) -> Value
    requires well { IsTrue (is_well_formed value) }
    ensures same { plain result ≡ or_empty (plain value) }
    ensures well { IsTrue (is_well_formed result) }
{
    match value {
        Value::Nil => Value::Node(Node::Empty),
        Value::Bool(truth) => Value::Bool(truth),
        Value::Int(number) => Value::Int(number),
        Value::Keyword(name) => Value::Keyword(name),
        Value::Text(text) => Value::Text(text),
        Value::Vector { depth, items } => Value::Vector { depth, items },
        Value::Function(function) => Value::Function(function),
        Value::Node(node) => Value::Node(node),
        Value::Reduced { depth, value } => Value::Reduced { depth, value },
        Value::Cell(id) => Value::Cell(id),
    }
}
