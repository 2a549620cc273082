//! Values that are made of others, where they aren't too deep, and their members not too many.
ghost use Rattle.std.specs.Prelude.{◌≡◌, ◌+◌, ◌<◌, ◌≤◌, [], ◌∷◌, ◌++◌, max, length, map, reverse, IfOk, IsTrue};
ghost use Rattle.seq_base.specs.declared.thrown.Thrown.TheVariants as E;
ghost use Rattle.seq_plan.specs.Lists.{list_of, put_before, with_first};
ghost use Rattle.seq_plan.specs.Nodes.{with_items, with_members, with_value};
ghost use Rattle.seq_turns.specs.Making.{Makes};
ghost use Rattle.seq_values.specs.Depth.{depth as value_depth, depth_of_all};
ghost use Rattle.seq_values.specs.Model as M;
ghost use Rattle.seq_values.specs.Plain.{plain, plains};
ghost use Rattle.seq_values.specs.WellFormed.{binds, ends_cons, are_well_formed, is_well_formed, is_well_formed_node, sight_of};
ghost use Rattle.seq_values.specs.declared.value.Node.TheVariants as N;
ghost use Rattle.seq_values.specs.declared.value.Value.TheVariants as V;

use crate::made::Made;
use crate::proper::{Gathered, Proper, ProperList};
use seq_base::Thrown;
use seq_values::{
    CellId, FnValue, Held, Node, Target, Value, before, chunk_before, cons_and, deepest_of,
    depth_of, empty_list, part, vector, vector_and,
};
use seq_vector::{NoMemory, PVec, Shared};
use std::alloc::Global;

/// A value that is too deep to be held.
fn too_deep(value: Value) -> Made
    ensures { result ≡ Made.Thrown E.Depth }
{
    Made::Thrown(Thrown::Depth)
}

/// Items of which one is too deep to be held.
fn too_deep_items(items: PVec<Value>) -> Made
    ensures { result ≡ Made.Thrown E.Depth }
{
    Made::Thrown(Thrown::Depth)
}

/// A vector of the items.
#[tactic(auto, using(crate::proofs::Limits::value_goes, crate::proofs::Limits::vector_deep, seq_values::proofs::WellFormedLemmas::list_keeps, seq_values::proofs::WellFormedLemmas::all_within))]
pub fn vector_made(items: ProperList) -> Made
    ensures { Makes (with_value (M.vector (M.values (plains items.items)))) result }
{
    if deepest_of(&items.items, 256) > 255 {
        return too_deep_items(items.items);
    }
    Made::Value(Proper {
        value: vector(items.items),
    })
}

/// A function with the arguments that are bound to it.
#[tactic(auto, using(crate::proofs::Limits::function_goes, crate::proofs::Limits::function_deep, seq_values::proofs::WellFormedLemmas::list_keeps, seq_values::proofs::WellFormedLemmas::all_within))]
pub fn function_made(target: Target, bound: ProperList) -> Made
    requires { IsTrue (binds target (map sight_of bound.items)) }
    ensures { Makes (with_value (M.function target (M.values (plains bound.items)))) result }
{
    if deepest_of(&bound.items, 256) > 255 {
        return too_deep_items(bound.items);
    }
    Made::Value(Proper {
        value: Value::Function(FnValue::of(target, bound.items)),
    })
}

/// An element before the part for the rest.
#[tactic(auto, using(crate::proofs::Limits::first_goes, crate::proofs::Limits::first_deep, seq_values::proofs::WellFormedLemmas::value_keeps))]
pub fn first_before(alloc: Global, first: Proper, id: CellId) -> Result<Made, NoMemory>
    ensures { IfOk result (λ m. Makes (with_value (M.cons (M.values (plain first.value ∷ [])) (M.cell id))) m) }
{
    if depth_of(&first.value) > 255 {
        return Ok(too_deep(first.value));
    }
    let value = before(alloc, first.value, Value::Cell(id))?;
    Ok(Made::Value(Proper { value }))
}

/// A chunk of the elements before the part for the rest, or the part itself where there are none.
#[tactic(auto, using(crate::proofs::Limits::items_goes, crate::proofs::Limits::items_deep, crate::proofs::Limits::items_none, seq_values::proofs::WellFormedLemmas::list_keeps, seq_values::proofs::WellFormedLemmas::all_within))]
pub fn items_before(alloc: Global, items: ProperList, id: CellId) -> Result<Made, NoMemory>
    ensures { IfOk result (λ m. Makes (with_value (with_items (M.values (plains items.items)) (M.cell id))) m) }
{
    if items.items.len() == 0 {
        return Ok(Made::Value(Proper { value: part(id) }));
    }
    if deepest_of(&items.items, 256) > 255 {
        return Ok(too_deep_items(items.items));
    }
    let value = chunk_before(alloc, items.items, Value::Cell(id))?;
    Ok(Made::Value(Proper { value }))
}

/// A chunk of the elements, after which nothing comes.
#[tactic(auto, using(crate::proofs::Limits::end_goes, crate::proofs::Limits::end_deep, seq_values::proofs::WellFormedLemmas::list_keeps, seq_values::proofs::WellFormedLemmas::all_within))]
pub fn chunk_and_end(alloc: Global, items: ProperList) -> Result<Made, NoMemory>
    requires { 0 < length items.items }
    ensures { IfOk result (λ m. Makes (with_value (M.chunk (M.values (plains items.items)) M.empty)) m) }
{
    if deepest_of(&items.items, 256) > 255 {
        return Ok(too_deep_items(items.items));
    }
    let value = chunk_before(alloc, items.items, Value::Node(Node::Empty))?;
    Ok(Made::Value(Proper { value }))
}

/// The heads before nothing.
fn before_nil(alloc: Global, heads: PVec<Value>) -> Result<Value, NoMemory>
    requires heads { IsTrue (are_well_formed heads) }
    requires some { 0 < length heads }
    requires depth { depth_of_all heads ≤ 255 }
    ensures stands { IfOk result (λ v. plain v ≡ M.cons (M.values (plains heads)) M.nil) }
    ensures well { IfOk result (λ v. IsTrue (is_well_formed v)) }
{
    match Shared::of(alloc, Value::Nil) {
        Ok(rest) => Ok(Value::Node(Node::cons(heads, rest))),
        Err((_, why)) => Err(why),
    }
}

/// A list, given its elements from the last on.
#[tactic(auto, using(crate::proofs::Limits::heads_goes, crate::proofs::Limits::heads_deep, crate::proofs::Limits::heads_none, seq_values::proofs::WellFormedLemmas::list_keeps, seq_values::proofs::WellFormedLemmas::all_within))]
pub fn list_of_heads(alloc: Global, heads: ProperList) -> Result<Made, NoMemory>
    ensures { IfOk result (λ m. Makes (with_value (list_of (reverse (plains heads.items)))) m) }
{
    if heads.items.len() == 0 {
        return Ok(Made::Value(Proper {
            value: empty_list(),
        }));
    }
    if deepest_of(&heads.items, 256) > 255 {
        return Ok(too_deep_items(heads.items));
    }
    let value = before_nil(alloc, heads.items)?;
    Ok(Made::Value(Proper { value }))
}

/// A list of the elements.
#[tactic(auto, using(crate::proofs::Limits::list_turned))]
pub fn list_made(alloc: Global, members: Gathered) -> Result<Made, NoMemory>
    ensures { IfOk result (λ m. Makes (with_value (list_of (plains members.items.items))) m) }
{
    let heads = members.turned().listed(alloc)?;
    let list = list_of_heads(alloc, heads)?;
    Ok(list)
}

/// A list of the members, as one element before the part for the rest.
#[tactic(auto, using(crate::proofs::Limits::list_in, crate::proofs::Limits::list_not))]
pub fn list_before(alloc: Global, members: Gathered, id: CellId) -> Result<Made, NoMemory>
    ensures { IfOk result (λ m. Makes (with_value (M.cons (M.values (list_of (plains members.items.items) ∷ [])) (M.cell id))) m) }
{
    let list = list_made(alloc, members)?;
    match list {
        Made::Thrown(why) => Ok(Made::Thrown(why)),
        Made::Value(list) => {
            let whole = first_before(alloc, list, id)?;
            Ok(whole)
        }
    }
}

/// There are as many members as there may be.
fn too_many(items: PVec<Value>, more: Value) -> Made
    ensures { result ≡ Made.Thrown E.Overflow }
{
    Made::Thrown(Thrown::Overflow)
}

/// The value that would be put beside the members is too deep to be held.
fn too_deep_with(items: PVec<Value>, more: Value) -> Made
    ensures { result ≡ Made.Thrown E.Depth }
{
    Made::Thrown(Thrown::Depth)
}

/// The items with one more.
fn appended(alloc: Global, items: PVec<Value>, depth: u32, last: Value) -> Result<Value, NoMemory>
    requires vector { IsTrue (is_well_formed (V.Vector depth items)) }
    requires few { length items < 4294967295 }
    requires last { IsTrue (is_well_formed last) }
    requires bound { value_depth last ≤ 255 }
    ensures same { IfOk result (λ v. v ≡ V.Vector (depth_of_all (items ++ last ∷ []) + 1) (items ++ last ∷ [])) }
    ensures well { IfOk result (λ v. IsTrue (is_well_formed v)) }
{
    vector_and(alloc, &items, depth, last)
}

/// A vector with one more item, the last.
#[tactic(auto, using(crate::proofs::Limits::more_goes, crate::proofs::Limits::more_deep, crate::proofs::Limits::more_many, seq_values::proofs::WellFormedLemmas::value_keeps))]
pub fn one_more(
    alloc: Global,
    depth: u32,
    items: PVec<Value>,
    last: Proper,
) -> Result<Made, NoMemory>
    requires { IsTrue (is_well_formed (V.Vector depth items)) }
    ensures { IfOk result (λ m. Makes (λ k. with_members (plains items ++ plain last.value ∷ []) (λ ys. with_value (M.vector (M.values ys)) k)) m) }
{
    if items.len() >= 4294967295 {
        return Ok(too_many(items, last.value));
    }
    if depth_of(&last.value) > 255 {
        return Ok(too_deep_with(items, last.value));
    }
    let value = appended(alloc, items, depth, last.value)?;
    Ok(Made::Value(Proper { value }))
}

/// A value that is no sequence.
fn no_sequence(first: Value, rest: Value) -> Made
    ensures { result ≡ Made.Thrown E.BadType }
{
    Made::Thrown(Thrown::BadType)
}

/// An element before a rest that is no `Cons`.
#[tactic(auto, using(crate::proofs::Limits::value_goes, crate::proofs::Limits::rest_deep_first, crate::proofs::Limits::rest_deep_rest, seq_values::proofs::WellFormedLemmas::value_keeps))]
fn before_rest(alloc: Global, first: Proper, rest: Value) -> Result<Made, NoMemory>
    requires well { IsTrue (is_well_formed rest) }
    requires ends { IsTrue (ends_cons (sight_of rest)) }
    ensures { IfOk result (λ m. Makes (with_value (M.cons (M.values (plain first.value ∷ [])) (plain rest))) m) }
{
    if depth_of(&first.value) > 255 {
        return Ok(too_deep_both(first.value, rest));
    }
    if depth_of(&rest) > 255 {
        return Ok(too_deep_both(first.value, rest));
    }
    let value = before(alloc, first.value, rest)?;
    Ok(Made::Value(Proper { value }))
}

/// Two values of which one is too deep to be held.
fn too_deep_both(first: Value, rest: Value) -> Made
    ensures { result ≡ Made.Thrown E.Depth }
{
    Made::Thrown(Thrown::Depth)
}

/// A `Cons` with one more element, the first.
#[tactic(auto, using(seq_values::proofs::WellFormedLemmas::node_well))]
fn with_head(
    alloc: Global,
    depth: u32,
    heads: PVec<Value>,
    rest: Held,
    first: Value,
) -> Result<Value, NoMemory>
    requires node { IsTrue (is_well_formed_node (N.Cons depth heads rest)) }
    requires few { length heads < 4294967295 }
    requires first { IsTrue (is_well_formed first) }
    requires bound { value_depth first ≤ 255 }
    ensures same { IfOk result (λ v. v ≡ V.Node (N.Cons (max (depth_of_all (heads ++ first ∷ [])) (value_depth rest) + 1) (heads ++ first ∷ []) rest)) }
    ensures well { IfOk result (λ v. IsTrue (is_well_formed v)) }
{
    let node = cons_and(alloc, &heads, &rest, depth, first)?;
    Ok(Value::Node(node))
}

/// There are as many heads as there may be.
fn too_many_heads(heads: PVec<Value>, rest: Held, first: Value) -> Made
    ensures { result ≡ Made.Thrown E.Overflow }
{
    Made::Thrown(Thrown::Overflow)
}

/// The element that would be put before the heads is too deep to be held.
fn too_deep_head(heads: PVec<Value>, rest: Held, first: Value) -> Made
    ensures { result ≡ Made.Thrown E.Depth }
{
    Made::Thrown(Thrown::Depth)
}

/// An element before a `Cons`, which takes it among its heads.
#[tactic(auto, using(crate::proofs::Limits::head_goes, crate::proofs::Limits::head_deep, crate::proofs::Limits::head_many, seq_values::proofs::WellFormedLemmas::value_keeps))]
fn before_cons(
    alloc: Global,
    first: Proper,
    depth: u32,
    heads: PVec<Value>,
    rest: Held,
) -> Result<Made, NoMemory>
    requires { IsTrue (is_well_formed_node (N.Cons depth heads rest)) }
    ensures { IfOk result (λ m. Makes (put_before (plain first.value) (M.cons (M.values (plains heads)) (plain rest))) m) }
{
    if heads.len() >= 4294967295 {
        return Ok(too_many_heads(heads, rest, first.value));
    }
    if depth_of(&first.value) > 255 {
        return Ok(too_deep_head(heads, rest, first.value));
    }
    let value = with_head(alloc, depth, heads, rest, first.value)?;
    Ok(Made::Value(Proper { value }))
}

/// An element before a node.
#[tactic(auto, using(crate::proofs::Limits::before_empty, crate::proofs::Limits::before_cons, crate::proofs::Limits::before_chunk, crate::proofs::Limits::before_range, crate::proofs::Limits::before_vec_seq, seq_values::proofs::WellFormedLemmas::node_well))]
fn before_node(alloc: Global, first: Proper, node: Node) -> Result<Made, NoMemory>
    requires { IsTrue (is_well_formed_node node) }
    ensures { IfOk result (λ m. Makes (with_first (plain first.value) (plain (V.Node node))) m) }
{
    match node {
        Node::Empty => before_rest(alloc, first, Value::Node(Node::Empty)),
        Node::Cons { depth, heads, rest } => before_cons(alloc, first, depth, heads, rest),
        Node::Chunk { depth, items, rest } => before_rest(
            alloc,
            first,
            Value::Node(Node::Chunk { depth, items, rest }),
        ),
        Node::Range { from, at, end } => {
            before_rest(alloc, first, Value::Node(Node::Range { from, at, end }))
        }
        Node::VecSeq { depth, items, at } => before_rest(
            alloc,
            first,
            Value::Node(Node::VecSeq { depth, items, at }),
        ),
    }
}

/// An element before the items of a vector.
#[tactic(auto, using(crate::proofs::Limits::before_items, crate::proofs::Limits::before_no_items, seq_values::proofs::WellFormedLemmas::vector_seq_well, seq_values::proofs::WellFormedLemmas::node_well))]
fn before_items(
    alloc: Global,
    first: Proper,
    depth: u32,
    items: PVec<Value>,
) -> Result<Made, NoMemory>
    requires { IsTrue (is_well_formed (V.Vector depth items)) }
    ensures { IfOk result (λ m. Makes (with_first (plain first.value) (plain (V.Vector depth items))) m) }
{
    if items.len() == 0 {
        return before_rest(alloc, first, Value::Nil);
    }
    before_rest(
        alloc,
        first,
        Value::Node(Node::VecSeq {
            depth,
            items,
            at: 0,
        }),
    )
}

#[tactic(auto, using(crate::proofs::Limits::before_nil, crate::proofs::Limits::before_cell, crate::proofs::Limits::before_bool, crate::proofs::Limits::before_int, crate::proofs::Limits::before_keyword, crate::proofs::Limits::before_text, crate::proofs::Limits::before_function, crate::proofs::Limits::before_reduced, seq_values::proofs::WellFormedLemmas::node_in))]
fn before_value(alloc: Global, first: Proper, rest: Value) -> Result<Made, NoMemory>
    requires { IsTrue (is_well_formed rest) }
    ensures { IfOk result (λ m. Makes (with_first (plain first.value) (plain rest)) m) }
{
    match rest {
        Value::Nil => before_rest(alloc, first, Value::Nil),
        Value::Bool(truth) => Ok(no_sequence(first.value, Value::Bool(truth))),
        Value::Int(number) => Ok(no_sequence(first.value, Value::Int(number))),
        Value::Keyword(name) => Ok(no_sequence(first.value, Value::Keyword(name))),
        Value::Text(text) => Ok(no_sequence(first.value, Value::Text(text))),
        Value::Vector { depth, items } => before_items(alloc, first, depth, items),
        Value::Function(function) => Ok(no_sequence(first.value, Value::Function(function))),
        Value::Node(node) => before_node(alloc, first, node),
        Value::Reduced { depth, value } => {
            Ok(no_sequence(first.value, Value::Reduced { depth, value }))
        }
        Value::Cell(id) => before_rest(alloc, first, Value::Cell(id)),
    }
}

/// An element before a sequence, as `cons` puts it.
pub fn put_first(alloc: Global, first: Proper, rest: Proper) -> Result<Made, NoMemory>
    ensures { IfOk result (λ m. Makes (with_first (plain first.value) (plain rest.value)) m) }
{
    let whole = before_value(alloc, first, rest.value)?;
    Ok(whole)
}
