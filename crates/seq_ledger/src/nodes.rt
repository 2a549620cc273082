//! What a walk meets at a value, before it looks at any part.
ghost use Rattle.std.specs.Prelude.{◌≡◌, length, IfOk};
ghost use Rattle.seq_ledger.specs.Walks.{met_as, more, next_of};
ghost use Rattle.seq_table.specs.Outputs.{is_listed};
ghost use Rattle.seq_values.specs.Plain.{plain};
ghost use Rattle.seq_values.specs.declared.value.Value.TheVariants.{Node as NodeValue};

use crate::state::Met;
use seq_values::{Held, Node, Value};
use seq_vector::{NoMemory, PVec, Share};

#[tactic(auto, using(crate::proofs::Meeting::meets_nil, crate::proofs::Meeting::meets_vector, crate::proofs::Meeting::meets_cell, crate::proofs::Meeting::meets_bool, crate::proofs::Meeting::meets_int, crate::proofs::Meeting::meets_keyword, crate::proofs::Meeting::meets_text, crate::proofs::Meeting::meets_function, crate::proofs::Meeting::meets_reduced))]
/// What a walk meets at a value.
pub(crate) fn meets(value: &Value) -> Result<Met, NoMemory>
    ensures { IfOk result (λ m. met_as m ≡ next_of (plain value.now)) }
{
    match value {
        Value::Nil => Ok(Met::Last(0)),
        Value::Vector { items, .. } => Ok(Met::Last(items.len() as u64)),
        Value::Node(node) => meets_in_node(node),
        Value::Cell(id) => Ok(Met::Part(*id)),
        Value::Bool(_) => Ok(Met::Nothing),
        Value::Int(_) => Ok(Met::Nothing),
        Value::Keyword(_) => Ok(Met::Nothing),
        Value::Text(_) => Ok(Met::Nothing),
        Value::Function(_) => Ok(Met::Nothing),
        Value::Reduced { .. } => Ok(Met::Nothing),
    }
}

#[tactic(auto, using(crate::proofs::Meeting::meets_empty, crate::proofs::Meeting::meets_cons, crate::proofs::Meeting::meets_chunk, crate::proofs::Meeting::meets_range, crate::proofs::Meeting::meets_vec_seq))]
/// What a walk meets at a node.
fn meets_in_node(node: &Node) -> Result<Met, NoMemory>
    ensures { IfOk result (λ m. met_as m ≡ next_of (plain (NodeValue node.now))) }
{
    match node {
        Node::Empty => Ok(Met::Last(0)),
        Node::Cons { heads, rest, .. } => meets_before(heads, rest),
        Node::Chunk { items, rest, .. } => meets_before(items, rest),
        Node::Range { at, end, .. } => Ok(Met::Last(end.abs_diff(*at))),
        Node::VecSeq { items, at, .. } => {
            Ok(Met::Last(items.len().saturating_sub(*at as usize) as u64))
        }
    }
}

/// Items before a rest.
fn meets_before(items: &PVec<Value>, rest: &Held) -> Result<Met, NoMemory>
    ensures { IfOk result (λ m. met_as m ≡ more (length items.now) (plain rest.now)) }
{
    let rest = rest.get().share()?;
    Ok(Met::More(items.len() as u32, rest))
}

#[tactic(auto, using(crate::proofs::Meeting::lists_node, crate::proofs::Meeting::lists_cell, crate::proofs::Meeting::lists_no_vector, crate::proofs::Meeting::lists_no_function, crate::proofs::Meeting::lists_no_reduced, crate::proofs::Meeting::lists_no_nil, crate::proofs::Meeting::lists_no_bool, crate::proofs::Meeting::lists_no_int, crate::proofs::Meeting::lists_no_keyword, crate::proofs::Meeting::lists_no_text))]
/// Whether a definition with this value has a line: it is a part or a node, and no vector.
pub(crate) fn has_line(value: &Value) -> bool
    ensures { result ≡ is_listed (plain value.now) }
{
    match value {
        Value::Cell(_) => true,
        Value::Node(_) => true,
        Value::Nil => false,
        Value::Bool(_) => false,
        Value::Int(_) => false,
        Value::Keyword(_) => false,
        Value::Text(_) => false,
        Value::Vector { .. } => false,
        Value::Function(_) => false,
        Value::Reduced { .. } => false,
    }
}
