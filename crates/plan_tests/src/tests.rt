ghost use Rattle.std.specs.Prelude.{IfOk, IsTrue};
ghost use Rattle.seq_values.specs.WellFormed.{is_well_formed, is_well_formed_node};

use seq_plan::{Walked, cursor_at};
use seq_values::{Node, Value, before, chunk_before, two_items};
use seq_vector::NoMemory;
use std::alloc::Global;
use std::test::Fail;

fn full(_why: NoMemory) -> Fail {
    Fail::from("no memory")
}

/// The sum of the integers of a node, walked by a cursor, and what stands behind the node.
fn total(node: Node, limit: usize) -> Result<(i64, Value), Fail>
    requires { IsTrue (is_well_formed_node node) }
{
    let Some(mut cursor) = cursor_at(node) else {
        return Ok((0, Value::Node(Node::Empty)));
    };
    let mut sum = 0i64;
    for _ in 0..limit {
        if let Value::Int(n) = cursor.first().map_err(full)? {
            sum = sum.wrapping_add(n);
        }
        match cursor.step().map_err(full)? {
            Walked::Within(next) => cursor = next,
            Walked::Beyond(rest) => return Ok((sum, rest)),
        }
    }
    Err(Fail::from("no end"))
}

#[tactic(auto, using(seq_values::proofs::WellFormedLemmas::node_in))]
/// The node that a value is.
fn node_of(value: Value) -> Result<Node, Fail>
    requires { IsTrue (is_well_formed value) }
    ensures { IfOk result (λ node. IsTrue (is_well_formed_node node)) }
{
    match value {
        Value::Node(node) => Ok(node),
        _ => Err(Fail::from("no node")),
    }
}

/// A chunk of 3 and 4.
fn chunk(alloc: Global) -> Result<Node, Fail>
    ensures { IfOk result (λ node. IsTrue (is_well_formed_node node)) }
{
    let items = two_items(alloc, Value::Int(3), Value::Int(4)).map_err(full)?;
    let value = chunk_before(alloc, items, Value::Node(Node::Empty)).map_err(full)?;
    node_of(value)
}

#[test]
fn cursors_walk_nodes(rt: HostRuntime) -> Result<(), Fail> {
    let alloc = rt.alloc();
    let one = node_of(before(alloc, Value::Int(7), Value::Nil).map_err(full)?)?;
    let range = Node::range(1, 5);
    let (first, _) = total(chunk(alloc)?, 8)?;
    let (second, rest) = total(one, 8)?;
    let (third, _) = total(range, 8)?;
    assert_eq!(rt; first, 7);
    assert_eq!(rt; second, 7);
    assert_eq!(rt; third, 10);
    assert!(rt; matches!(rest, Value::Node(Node::Empty)));
    let Some(cursor) = cursor_at(chunk(alloc)?) else {
        return Err(Fail::from("no cursor"));
    };
    let Walked::Within(later) = cursor.step().map_err(full)? else {
        return Err(Fail::from("at the end"));
    };
    let left = node_of(later.value(alloc).map_err(full)?)?;
    let (fourth, _) = total(left, 8)?;
    assert_eq!(rt; fourth, 4);
    Ok(())
}
