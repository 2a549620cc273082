//! What `seq` of a value finds. A node is handed on as it is.
ghost use Rattle.std.specs.Prelude.{◌≡◌, ◌<◌, length, IsTrue};
ghost use Rattle.eval_frames.specs.Parts.{FindsNow};
ghost use Rattle.seq_plan.specs.Nodes.{found, now};
ghost use Rattle.seq_values.specs.Model as M;
ghost use Rattle.seq_values.specs.Plain.{plain};
ghost use Rattle.seq_values.specs.WellFormed.{is_well_formed, is_well_formed_node};
ghost use Rattle.seq_values.specs.declared.value.Value.TheVariants as V;

use crate::state::{FoundNow, Sequence};
use seq_turns::Proper;
use seq_values::{Node, Value};
use seq_vector::PVec;

/// There is no element.
#[tactic(auto, using(crate::proofs::Findings::nil_is_seq))]
fn nothing() -> Sequence
    ensures { plain result.value ≡ M.nil }
{
    Sequence { value: Value::Nil }
}

/// A node that `seq` gives as it is.
#[tactic(auto, using(crate::proofs::Findings::itself_is_seq, seq_values::proofs::WellFormedLemmas::node_well))]
fn itself(node: Node) -> FoundNow
    requires well { IsTrue (is_well_formed_node node) }
    requires found { found (plain (V.Node node)) ≡ now (plain (V.Node node)) }
    ensures { FindsNow result (plain (V.Node node)) }
{
    FoundNow::Now(Sequence {
        value: Value::Node(node),
    })
}

/// `seq` of a node.
#[tactic(auto, using(crate::proofs::Findings::cons_itself, crate::proofs::Findings::chunk_itself, crate::proofs::Findings::range_itself, crate::proofs::Findings::vec_seq_itself))]
fn node_found(node: Node) -> FoundNow
    requires { IsTrue (is_well_formed_node node) }
    ensures { FindsNow result (plain (V.Node node)) }
{
    match node {
        Node::Empty => FoundNow::Now(nothing()),
        Node::Cons { depth, heads, rest } => itself(Node::Cons { depth, heads, rest }),
        Node::Chunk { depth, items, rest } => itself(Node::Chunk { depth, items, rest }),
        Node::Range { from, at, end } => itself(Node::Range { from, at, end }),
        Node::VecSeq { depth, items, at } => itself(Node::VecSeq { depth, items, at }),
    }
}

/// `seq` of a vector that has items.
fn items_found(depth: u32, items: PVec<Value>) -> FoundNow
    requires well { IsTrue (is_well_formed (V.Vector depth items)) }
    requires some { 0 < length items }
    ensures { FindsNow result (plain (V.Vector depth items)) }
{
    FoundNow::Now(Sequence {
        value: Value::Node(Node::VecSeq {
            depth,
            items,
            at: 0,
        }),
    })
}

/// `seq` of a vector.
#[tactic(auto, using(seq_turns::proofs::Seeing::found_none))]
fn vector_found(depth: u32, items: PVec<Value>) -> FoundNow
    requires { IsTrue (is_well_formed (V.Vector depth items)) }
    ensures { FindsNow result (plain (V.Vector depth items)) }
{
    if items.len() == 0 {
        return FoundNow::Now(nothing());
    }
    items_found(depth, items)
}

/// The value is no sequence.
fn none_found(value: Value) -> FoundNow
    ensures { result ≡ FoundNow.NoSeq }
{
    FoundNow::NoSeq
}

#[tactic(auto, using(seq_values::proofs::WellFormedLemmas::node_in))]
fn value_found(value: Value) -> FoundNow
    requires { IsTrue (is_well_formed value) }
    ensures { FindsNow result (plain value) }
{
    match value {
        Value::Nil => FoundNow::Now(nothing()),
        Value::Bool(truth) => none_found(Value::Bool(truth)),
        Value::Int(number) => none_found(Value::Int(number)),
        Value::Keyword(name) => none_found(Value::Keyword(name)),
        Value::Text(text) => none_found(Value::Text(text)),
        Value::Vector { depth, items } => vector_found(depth, items),
        Value::Function(function) => none_found(Value::Function(function)),
        Value::Node(node) => node_found(node),
        Value::Reduced { depth, value } => none_found(Value::Reduced { depth, value }),
        Value::Cell(id) => FoundNow::Asks(id),
    }
}

/// What `seq` of a value finds.
pub(crate) fn found_now(value: Proper) -> FoundNow
    ensures { FindsNow result (plain value.value) }
{
    value_found(value.value)
}
