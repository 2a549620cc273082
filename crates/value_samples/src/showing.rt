//! Texts of values. What stands behind the elements of a node comes after a point, a part as its number, and what is held two levels deep is left out.
use seq_values::{CellId, Held, Line, Node, Value, print_atom};
use seq_vector::{NoMemory, PVec};

fn show_number(number: i64, line: &mut Line) -> Result<(), NoMemory> {
    print_atom(&Value::Int(number), line)?;
    Ok(())
}

fn show_part(id: CellId, line: &mut Line) -> Result<(), NoMemory> {
    line.push(b'#')?;
    show_number(id.number() as i64, line)
}

/// An atom or a part.
fn show_small(value: &Value, line: &mut Line) -> Result<(), NoMemory> {
    if print_atom(value, line)? {
        return Ok(());
    }
    match value {
        Value::Cell(id) => show_part(*id, line),
        _ => line.append(b".."),
    }
}

fn show_item(items: &PVec<Value>, at: usize, line: &mut Line) -> Result<(), NoMemory> {
    match items.get(at) {
        Some(item) => show_small(item, line),
        None => Ok(()),
    }
}

/// The items from a place on.
fn show_items(items: &PVec<Value>, from: usize, line: &mut Line) -> Result<(), NoMemory> {
    for at in from..items.len() {
        if at > from {
            line.push(b' ')?;
        }
        show_item(items, at, line)?;
    }
    Ok(())
}

/// The items from the last on.
fn show_turned(items: &PVec<Value>, line: &mut Line) -> Result<(), NoMemory> {
    let count = items.len();
    for done in 0..count {
        if done > 0 {
            line.push(b' ')?;
        }
        show_item(items, count - 1 - done, line)?;
    }
    Ok(())
}

/// What stands behind the elements of a node, where that is something.
fn show_rest(rest: &Held, line: &mut Line) -> Result<(), NoMemory> {
    match rest.get() {
        Value::Nil => Ok(()),
        Value::Node(Node::Empty) => Ok(()),
        other => {
            line.append(b" . ")?;
            show_small(other, line)
        }
    }
}

fn show_range(at: i64, end: i64, line: &mut Line) -> Result<(), NoMemory> {
    show_number(at, line)?;
    line.append(b"..")?;
    show_number(end, line)
}

/// A list and what stands before a part in `(..)`, a chunk in `{..}`, a vector's seq in `<..>`, a range as `1..4`.
fn show_node(node: &Node, line: &mut Line) -> Result<(), NoMemory> {
    match node {
        Node::Empty => line.append(b"()"),
        Node::Cons { heads, rest, .. } => {
            line.push(b'(')?;
            show_turned(heads, line)?;
            show_rest(rest, line)?;
            line.push(b')')
        }
        Node::Chunk { items, rest, .. } => {
            line.push(b'{')?;
            show_items(items, 0, line)?;
            show_rest(rest, line)?;
            line.push(b'}')
        }
        Node::Range { at, end, .. } => show_range(*at, *end, line),
        Node::VecSeq { items, at, .. } => {
            line.push(b'<')?;
            show_items(items, *at as usize, line)?;
            line.push(b'>')
        }
    }
}

/// Appends how a value is built: a vector in `[..]`, a node by its kind, a reduced value after `!`.
pub fn show(value: &Value, line: &mut Line) -> Result<(), NoMemory> {
    match value {
        Value::Vector { items, .. } => {
            line.push(b'[')?;
            show_items(items, 0, line)?;
            line.push(b']')
        }
        Value::Node(node) => show_node(node, line),
        Value::Reduced { value, .. } => {
            line.push(b'!')?;
            show_small(value.get(), line)
        }
        other => show_small(other, line),
    }
}
