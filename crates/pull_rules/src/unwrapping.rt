//! The answers of a reduction's function.
ghost use Rattle.std.specs.Prelude.{◌≡◌, true, false, IfOk, IsTrue};
ghost use Rattle.seq_plan.specs.Stages.{is_reduced, unwrapped};
ghost use Rattle.seq_values.specs.Plain.{plain};
ghost use Rattle.seq_values.specs.WellFormed.{is_well_formed, is_well_formed_node};
ghost use Rattle.seq_values.specs.declared.value.Value.TheVariants as V;

use seq_turns::Proper;
use seq_values::{Held, Node, Value};
use seq_vector::{NoMemory, Share};

/// The value in an answer, and whether the answer was a reduced one.
#[derive(Drop)]
pub(crate) struct Unwrapped {
    pub(crate) value: Proper,
    pub(crate) ended: bool,
}

fn going(value: Proper) -> Unwrapped
    ensures { (result.value.value ≡ value.value) × (result.ended ≡ false) }
{
    Unwrapped {
        value,
        ended: false,
    }
}

fn held(value: Held) -> Result<Unwrapped, NoMemory>
    requires { IsTrue (is_well_formed value) }
    ensures { IfOk result (λ u. (u.value.value ≡ value) × (u.ended ≡ true)) }
{
    let value = value.get().share()?;
    Ok(Unwrapped {
        value: Proper { value },
        ended: true,
    })
}

/// The value in a reduced one, or a value that isn't reduced.
#[tactic(auto, using(seq_values::proofs::WellFormedLemmas::reduced_in, seq_values::proofs::WellFormedLemmas::node_in))]
pub(crate) fn unwrap_answer(answer: Value) -> Result<Unwrapped, NoMemory>
    requires { IsTrue (is_well_formed answer) }
    ensures value { IfOk result (λ u. plain u.value.value ≡ unwrapped (plain answer)) }
    ensures ended { IfOk result (λ u. u.ended ≡ is_reduced (plain answer)) }
{
    match answer {
        Value::Reduced { value, .. } => Ok(held(value)?),
        Value::Nil => Ok(going(Proper { value: Value::Nil })),
        Value::Bool(truth) => Ok(going(Proper {
            value: Value::Bool(truth),
        })),
        Value::Int(number) => Ok(going(Proper {
            value: Value::Int(number),
        })),
        Value::Keyword(name) => Ok(going(Proper {
            value: Value::Keyword(name),
        })),
        Value::Text(text) => Ok(going(Proper {
            value: Value::Text(text),
        })),
        Value::Vector { depth, items } => Ok(going(Proper {
            value: Value::Vector { depth, items },
        })),
        Value::Function(function) => Ok(going(Proper {
            value: Value::Function(function),
        })),
        Value::Node(node) => Ok(going(of_node(node))),
        Value::Cell(id) => Ok(going(Proper {
            value: Value::Cell(id),
        })),
    }
}

/// A node as a value.
#[tactic(auto, using(seq_values::proofs::WellFormedLemmas::node_well))]
fn of_node(node: Node) -> Proper
    requires { IsTrue (is_well_formed_node node) }
    ensures same { result.value ≡ V.Node node }
    ensures whole { is_reduced (plain (V.Node node)) ≡ false }
    ensures itself { unwrapped (plain (V.Node node)) ≡ plain (V.Node node) }
{
    match node {
        Node::Empty => Proper {
            value: Value::Node(Node::Empty),
        },
        Node::Cons { depth, heads, rest } => Proper {
            value: Value::Node(Node::Cons { depth, heads, rest }),
        },
        Node::Chunk { depth, items, rest } => Proper {
            value: Value::Node(Node::Chunk { depth, items, rest }),
        },
        Node::Range { from, at, end } => Proper {
            value: Value::Node(Node::Range { from, at, end }),
        },
        Node::VecSeq { depth, items, at } => Proper {
            value: Value::Node(Node::VecSeq { depth, items, at }),
        },
    }
}
