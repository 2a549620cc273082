ghost use Rattle.std.specs.Prelude.{◌≡◌, ◌+◌, ◌<◌, ◌≤◌, [], ◌∷◌, ◌++◌, max, length, take, drop, IfOk, IfSome, IsTrue};
ghost use Rattle.std.specs.Option.{SomeIff};
ghost use Rattle.seq_values.specs.Depth.{depth as value_depth, depth_of_all, keep_depth};
ghost use Rattle.seq_values.specs.WellFormed.{is_well_formed, is_well_formed_node};

use crate::depth::{deepest_from_last, deepest_of, depth_of};
use crate::value::{Held, Node, Value};
use seq_vector::{NoMemory, PVec, Share};
use std::alloc::Global;

#[tactic(auto, using(crate::proofs::PartLemmas::vector_and_same, crate::proofs::PartLemmas::vector_and_well, crate::proofs::WellFormedLemmas::value_keeps))]
/// A vector of that depth with one more item, the last.
pub fn vector_and(
    alloc: Global,
    items: &PVec<Value>,
    depth: u32,
    last: Value,
) -> Result<Value, NoMemory>
    requires vector { IsTrue (is_well_formed (Value.Vector depth items.now)) }
    requires few { length items.now < 4294967295 }
    requires last { IsTrue (is_well_formed last) }
    requires bound { value_depth last ≤ 255 }
    ensures same { IfOk result (λ v. v ≡ Value.Vector (depth_of_all (items.now ++ last ∷ []) + 1) (items.now ++ last ∷ [])) }
    ensures well { IfOk result (λ v. IsTrue (is_well_formed v)) }
{
    let depth = depth.max(depth_of(&last) + 1);
    match items.push(alloc, last) {
        Ok(items) => Ok(Value::Vector { depth, items }),
        Err((_, why)) => Err(why),
    }
}

#[tactic(auto, using(crate::proofs::PartLemmas::vector_part_well, crate::proofs::PartLemmas::vector_part_keeps, crate::proofs::PartLemmas::vector_part_within, crate::proofs::PartLemmas::vector_part_small))]
/// The `count` items from `from` of a vector of that depth, as a vector, and `None` exactly where they pass its end. Its depth is that of these items alone.
pub fn vector_part(
    alloc: Global,
    items: &PVec<Value>,
    depth: u32,
    from: usize,
    count: usize,
) -> Result<Option<Value>, NoMemory>
    requires vector { IsTrue (is_well_formed (Value.Vector depth items.now)) }
    ensures same { IfOk result (λ part. SomeIff part (from + count ≤ length items.now) (Value.Vector (depth_of_all (take count (drop from items.now)) + 1) (take count (drop from items.now)))) }
    ensures well { IfOk result (λ part. IfSome part (λ v. IsTrue (is_well_formed v))) }
{
    match items.window(alloc, from, count)? {
        None => Ok(None),
        Some(items) => {
            let depth = deepest_of(&items, depth - 1) + 1;
            Ok(Some(Value::Vector { depth, items }))
        }
    }
}

#[tactic(auto, using(crate::proofs::PartLemmas::cons_and_same, crate::proofs::PartLemmas::cons_and_well, crate::proofs::WellFormedLemmas::value_keeps))]
/// A `Cons` of that depth with one more element, the first.
pub fn cons_and(
    alloc: Global,
    heads: &PVec<Value>,
    rest: &Held,
    depth: u32,
    first: Value,
) -> Result<Node, NoMemory>
    requires node { IsTrue (is_well_formed_node (Node.Cons depth heads.now rest.now)) }
    requires few { length heads.now < 4294967295 }
    requires first { IsTrue (is_well_formed first) }
    requires bound { value_depth first ≤ 255 }
    ensures same { IfOk result (λ n. n ≡ Node.Cons (max (depth_of_all (heads.now ++ first ∷ [])) (value_depth rest.now) + 1) (heads.now ++ first ∷ []) rest.now) }
    ensures well { IfOk result (λ n. IsTrue (is_well_formed_node n)) }
{
    let depth = depth.max(depth_of(&first) + 1);
    let rest = rest.share()?;
    match heads.push(alloc, first) {
        Ok(heads) => Ok(Node::Cons { depth, heads, rest }),
        Err((_, why)) => Err(why),
    }
}

#[tactic(auto, using(crate::proofs::PartLemmas::cons_part_well, crate::proofs::PartLemmas::cons_part_keeps, crate::proofs::PartLemmas::cons_part_within, crate::proofs::PartLemmas::cons_part_small, crate::proofs::PartLemmas::cons_rest_well, crate::proofs::WellFormedLemmas::value_keeps))]
/// What is left of a `Cons` of that depth with the first `left` of its heads. Its depth is that of what is left.
pub fn cons_part(
    alloc: Global,
    heads: &PVec<Value>,
    rest: &Held,
    depth: u32,
    left: usize,
) -> Result<Node, NoMemory>
    requires node { IsTrue (is_well_formed_node (Node.Cons depth heads.now rest.now)) }
    requires some { (0 < left) × (left ≤ length heads.now) }
    ensures same { IfOk result (λ n. n ≡ Node.Cons (max (depth_of_all (take left heads.now)) (value_depth rest.now) + 1) (take left heads.now) rest.now) }
    ensures well { IfOk result (λ n. IsTrue (is_well_formed_node n)) }
{
    let heads = first_items(alloc, heads, left)?;
    let depth = deepest_before(&heads, depth_of(rest.get()), depth - 1) + 1;
    let rest = rest.share()?;
    Ok(Node::Cons { depth, heads, rest })
}

/// The depth of the deepest of heads and of what stands behind them, given a bound of both. No head is looked at where what stands behind has the bound.
fn deepest_before(heads: &PVec<Value>, behind: u32, most: u32) -> u32
    requires kept { IsTrue (keep_depth heads.now) }
    requires bound { (depth_of_all heads.now ≤ most) × (behind ≤ most) }
    ensures { result ≡ max (depth_of_all heads.now) behind }
{
    if behind == most {
        behind
    } else {
        deepest_from_last(heads, most).max(behind)
    }
}

#[tactic(auto, using(crate::proofs::PartLemmas::chunk_part_well, crate::proofs::PartLemmas::chunk_part_keeps, crate::proofs::PartLemmas::chunk_part_within, crate::proofs::PartLemmas::chunk_part_small, crate::proofs::PartLemmas::chunk_rest_well, crate::proofs::WellFormedLemmas::value_keeps))]
/// What is left of a chunk of that depth after its first `done` items. Its depth is that of what is left.
pub fn chunk_part(
    alloc: Global,
    items: &PVec<Value>,
    rest: &Held,
    depth: u32,
    done: usize,
) -> Result<Node, NoMemory>
    requires node { IsTrue (is_well_formed_node (Node.Chunk depth items.now rest.now)) }
    requires some { done < length items.now }
    ensures same { IfOk result (λ n. n ≡ Node.Chunk (max (depth_of_all (drop done items.now)) (value_depth rest.now) + 1) (drop done items.now) rest.now) }
    ensures well { IfOk result (λ n. IsTrue (is_well_formed_node n)) }
{
    let items = last_items(alloc, items, done)?;
    let depth = deepest_of(&items, depth - 1).max(depth_of(rest.get())) + 1;
    let rest = rest.share()?;
    Ok(Node::Chunk { depth, items, rest })
}

/// The first `count` items.
fn first_items(alloc: Global, items: &PVec<Value>, count: usize) -> Result<PVec<Value>, NoMemory>
    requires { count ≤ length items.now }
    ensures { IfOk result (λ part. part ≡ take count items.now) }
{
    match items.window(alloc, 0, count)? {
        Some(part) => Ok(part),
        None => unreachable!(),
    }
}

#[tactic(auto, using(crate::proofs::PartLemmas::all_behind))]
/// The items behind the first `done`.
fn last_items(alloc: Global, items: &PVec<Value>, done: usize) -> Result<PVec<Value>, NoMemory>
    requires { done ≤ length items.now }
    ensures { IfOk result (λ part. part ≡ drop done items.now) }
{
    match items.window(alloc, done, items.len() - done)? {
        Some(part) => Ok(part),
        None => unreachable!(),
    }
}
