//! What the words that walk look at in a value.
ghost use Rattle.std.specs.Prelude.{◌≡◌, true, false, IsTrue};
ghost use Rattle.seq_values.specs.Plain.{plain};
ghost use Rattle.seq_values.specs.WellFormed.{is_well_formed, is_well_formed_node};
ghost use Rattle.seq_values.specs.declared.value.Value.TheVariants as V;
ghost use Rattle.walk_rules.specs.Words.{is_another, is_reduced, is_vector as vector};
ghost use Rattle.walk_rules.specs.Shapes.{IsShape};

use crate::listed::{Listed, Shape};
use seq_turns::Proper;
use seq_values::{Node, Value};

/// The kind of a value.
pub(crate) fn shape(value: Proper) -> Shape
    ensures { IsShape result (plain value.value) }
{
    shape_of(value.value)
}

#[tactic(auto, using(seq_values::proofs::WellFormedLemmas::node_in))]
fn shape_of(value: Value) -> Shape
    requires { IsTrue (is_well_formed value) }
    ensures { IsShape result (plain value) }
{
    match value {
        Value::Nil => Shape::Nil,
        Value::Vector { depth, items } => Shape::Vector(Listed { depth, items }),
        Value::Bool(truth) => Shape::Another(Proper {
            value: Value::Bool(truth),
        }),
        Value::Int(number) => Shape::Another(Proper {
            value: Value::Int(number),
        }),
        Value::Keyword(name) => Shape::Another(Proper {
            value: Value::Keyword(name),
        }),
        Value::Text(text) => Shape::Another(Proper {
            value: Value::Text(text),
        }),
        Value::Function(function) => Shape::Another(Proper {
            value: Value::Function(function),
        }),
        Value::Node(node) => Shape::Another(of_node(node)),
        Value::Reduced { depth, value } => Shape::Another(Proper {
            value: Value::Reduced { depth, value },
        }),
        Value::Cell(id) => Shape::Another(Proper {
            value: Value::Cell(id),
        }),
    }
}

/// A node as a value.
#[tactic(auto, using(seq_values::proofs::WellFormedLemmas::node_well))]
pub(crate) fn of_node(node: Node) -> Proper
    requires { IsTrue (is_well_formed_node node) }
    ensures same { result.value ≡ V.Node node }
    ensures kind { is_another (plain (V.Node node)) ≡ true }
    ensures whole { is_reduced (plain (V.Node node)) ≡ false }
{
    match node {
        Node::Empty => Proper {
            value: Value::Node(Node::Empty),
        },
        Node::Cons { depth, heads, rest } => Proper {
            value: Value::Node(Node::Cons { depth, heads, rest }),
        },
        Node::Chunk { depth, items, rest } => Proper {
            value: Value::Node(Node::Chunk { depth, items, rest }),
        },
        Node::Range { from, at, end } => Proper {
            value: Value::Node(Node::Range { from, at, end }),
        },
        Node::VecSeq { depth, items, at } => Proper {
            value: Value::Node(Node::VecSeq { depth, items, at }),
        },
    }
}

/// Whether a value is a vector.
pub(crate) fn is_vector(value: &Value) -> bool
    ensures { result ≡ vector (plain value.now) }
{
    match value {
        Value::Nil => false,
        Value::Bool(_) => false,
        Value::Int(_) => false,
        Value::Keyword(_) => false,
        Value::Text(_) => false,
        Value::Vector { .. } => true,
        Value::Function(_) => false,
        Value::Node(node) => match node {
            Node::Empty => false,
            Node::Cons { .. } => false,
            Node::Chunk { .. } => false,
            Node::Range { .. } => false,
            Node::VecSeq { .. } => false,
        },
        Value::Reduced { .. } => false,
        Value::Cell(_) => false,
    }
}
