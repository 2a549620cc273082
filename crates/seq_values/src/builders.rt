ghost use Rattle.std.specs.Prelude.{◌≡◌, ◌+◌, ◌<◌, ◌≤◌, [], ◌∷◌, ◌++◌, max, length, IfOk, IsTrue, ◌↔◌};
ghost use Rattle.seq_values.specs.Depth.{depth, depth_of_all};
ghost use Rattle.seq_values.specs.WellFormed.{sight_of, ends_cons, ends_chunk, is_well_formed, are_well_formed};
ghost use Rattle.seq_values.specs.Model as M;
ghost use Rattle.seq_values.specs.Plain.{plain, plains, plain_term};
ghost use Rattle.seq_values.specs.declared.words.Target.{Target};

use crate::cell_id::CellId;
use crate::depth::{deepest_of, depth_of};
use crate::term::Term;
use crate::value::{FnValue, Node, Value};
use crate::words::{Builtin, Op};
use seq_vector::{NoMemory, PVec, Shared};
use std::alloc::Global;

/// One value as a vector.
pub fn one_item(alloc: Global, only: Value) -> Result<PVec<Value>, NoMemory>
    ensures same { IfOk result (λ items. items ≡ only ∷ []) }
    ensures stands { IfOk result (λ items. plains items ≡ plain only ∷ []) }
{
    let Ok(mut items) = Vec::with_capacity(alloc, 1) else {
        return Err(NoMemory);
    };
    if items.push(only).is_err() {
        return Err(NoMemory);
    }
    match PVec::from_items(alloc, items) {
        Ok(all) => Ok(all),
        Err((_, why)) => Err(why),
    }
}

/// Two values as a vector.
pub fn two_items(alloc: Global, first: Value, second: Value) -> Result<PVec<Value>, NoMemory>
    ensures same { IfOk result (λ items. items ≡ first ∷ second ∷ []) }
    ensures stands { IfOk result (λ items. plains items ≡ plain first ∷ plain second ∷ []) }
{
    let Ok(mut items) = Vec::with_capacity(alloc, 2) else {
        return Err(NoMemory);
    };
    if items.push(first).is_err() || items.push(second).is_err() {
        return Err(NoMemory);
    }
    match PVec::from_items(alloc, items) {
        Ok(all) => Ok(all),
        Err((_, why)) => Err(why),
    }
}

/// An integer.
pub fn integer(number: i64) -> Value
    ensures stands { plain result ≡ M.int number }
    ensures well { IsTrue (is_well_formed result) }
{
    Value::Int(number)
}

/// A truth value.
pub fn truth(holds: bool) -> Value
    ensures stands { plain result ≡ M.bool holds }
    ensures well { IsTrue (is_well_formed result) }
{
    Value::Bool(holds)
}

/// A part as a value.
pub fn part(id: CellId) -> Value
    ensures stands { plain result ≡ M.cell id }
    ensures well { IsTrue (is_well_formed result) }
{
    Value::Cell(id)
}

#[tactic(auto, using(crate::proofs::WellFormedLemmas::vector_well, crate::proofs::WellFormedLemmas::list_keeps))]
/// The items as a vector. It looks at each item in one step.
pub fn vector(items: PVec<Value>) -> Value
    requires items { IsTrue (are_well_formed items) }
    requires depth { depth_of_all items ≤ 255 }
    ensures same { result ≡ Value.Vector (depth_of_all items + 1) items }
    ensures stands { plain result ≡ M.vector (M.values (plains items)) }
    ensures well { IsTrue (is_well_formed result) }
{
    let depth = deepest_of(&items, 255) + 1;
    Value::Vector { depth, items }
}

/// The empty list `()`.
pub fn empty_list() -> Value
    ensures stands { plain result ≡ M.empty }
    ensures well { IsTrue (is_well_formed result) }
{
    Value::Node(Node::Empty)
}

/// A built-in word as a function.
pub fn word_value(word: Builtin) -> Value
    ensures stands { plain result ≡ M.function (Target.Builtin word) M.no_values }
    ensures well { IsTrue (is_well_formed result) }
{
    Value::Function(FnValue::word(word))
}

#[tactic(auto, using(crate::proofs::WellFormedLemmas::one_well, crate::proofs::WellFormedLemmas::one_within, crate::proofs::WellFormedLemmas::node_well))]
/// One element before a rest, which is no `Cons`.
pub fn before(alloc: Global, first: Value, rest: Value) -> Result<Value, NoMemory>
    requires first { IsTrue (is_well_formed first) }
    requires rest { IsTrue (is_well_formed rest) }
    requires ends { IsTrue (ends_cons (sight_of rest)) }
    requires depth { (depth first ≤ 255) × (depth rest ≤ 255) }
    ensures same { IfOk result (λ v. v ≡ Value.Node (Node.Cons (max (depth_of_all (first ∷ [])) (depth rest) + 1) (first ∷ []) rest)) }
    ensures stands { IfOk result (λ v. plain v ≡ M.cons (M.values (plain first ∷ [])) (plain rest)) }
    ensures well { IfOk result (λ v. IsTrue (is_well_formed v)) }
{
    let heads = one_item(alloc, first)?;
    match Shared::of(alloc, rest) {
        Ok(rest) => Ok(Value::Node(Node::cons(heads, rest))),
        Err((_, why)) => Err(why),
    }
}

#[tactic(auto, using(crate::proofs::WellFormedLemmas::node_well))]
/// A chunk of elements before a rest, which is a lazy part or `()`.
pub fn chunk_before(alloc: Global, items: PVec<Value>, rest: Value) -> Result<Value, NoMemory>
    requires items { IsTrue (are_well_formed items) }
    requires some { 0 < length items }
    requires rest { IsTrue (is_well_formed rest) }
    requires ends { IsTrue (ends_chunk (sight_of rest)) }
    requires depth { (depth_of_all items ≤ 255) × (depth rest ≤ 255) }
    ensures same { IfOk result (λ v. v ≡ Value.Node (Node.Chunk (max (depth_of_all items) (depth rest) + 1) items rest)) }
    ensures stands { IfOk result (λ v. plain v ≡ M.chunk (M.values (plains items)) (plain rest)) }
    ensures well { IfOk result (λ v. IsTrue (is_well_formed v)) }
{
    match Shared::of(alloc, rest) {
        Ok(rest) => Ok(Value::Node(Node::chunk(items, rest))),
        Err((_, why)) => Err(why),
    }
}

#[tactic(auto, using(crate::proofs::WellFormedLemmas::reduced_well, crate::proofs::WellFormedLemmas::value_keeps))]
/// A value that ends a reduction.
pub fn reduced(alloc: Global, value: Value) -> Result<Value, NoMemory>
    requires value { IsTrue (is_well_formed value) }
    requires depth { depth value ≤ 255 }
    ensures same { IfOk result (λ v. v ≡ Value.Reduced (depth value + 1) value) }
    ensures stands { IfOk result (λ v. plain v ≡ M.reduced (plain value)) }
    ensures well { IfOk result (λ v. IsTrue (is_well_formed v)) }
{
    let depth = depth_of(&value) + 1;
    match Shared::of(alloc, value) {
        Ok(value) => Ok(Value::Reduced { depth, value }),
        Err((_, why)) => Err(why),
    }
}

/// A term of one argument.
pub fn term_of_one(alloc: Global, op: Op, only: Value) -> Result<Term, NoMemory>
    ensures same { IfOk result (λ t. (t.op ≡ op) × (t.args ≡ only ∷ [])) }
    ensures stands { IfOk result (λ t. plain_term t ≡ record { op = op; args = plain only ∷ [] }) }
{
    let args = one_item(alloc, only)?;
    Ok(Term { op, args })
}

/// A term of two arguments.
pub fn term_of_two(alloc: Global, op: Op, first: Value, second: Value) -> Result<Term, NoMemory>
    ensures same { IfOk result (λ t. (t.op ≡ op) × (t.args ≡ first ∷ second ∷ [])) }
    ensures stands { IfOk result (λ t. plain_term t ≡ record { op = op; args = plain first ∷ plain second ∷ [] }) }
{
    let args = two_items(alloc, first, second)?;
    Ok(Term { op, args })
}

/// Whether the value is nil.
pub fn is_nil(value: &Value) -> bool
    ensures { IsTrue result ↔ (plain value.now ≡ M.nil) }
{
    match value {
        Value::Nil => true,
        Value::Bool(_) => false,
        Value::Int(_) => false,
        Value::Keyword(_) => false,
        Value::Text(_) => false,
        Value::Vector { .. } => false,
        Value::Function(_) => false,
        Value::Node(node) => match node {
            Node::Empty => false,
            Node::Cons { .. } => false,
            Node::Chunk { .. } => false,
            Node::Range { .. } => false,
            Node::VecSeq { .. } => false,
        },
        Value::Reduced { .. } => false,
        Value::Cell(_) => false,
    }
}
