//! Values and terms as text. Of five items or more the first and the last are shown.
use seq_base::Thrown;
use seq_values::{CellId, Kind, Line, Node, Op, Term, Value, integer, print_atom};
use seq_vector::{NoMemory, PVec};

fn write_number(line: &mut Line, number: i64) -> Result<(), NoMemory> {
    let _printed = print_atom(&integer(number), line)?;
    Ok(())
}

/// `#3`
pub(crate) fn write_part(line: &mut Line, id: CellId) -> Result<(), NoMemory> {
    line.append(b"#")?;
    write_number(line, id.number() as i64)
}

/// A count, and what is counted.
pub(crate) fn write_count(line: &mut Line, count: u32, what: &[u8]) -> Result<(), NoMemory> {
    write_number(line, count as i64)?;
    line.append(what)
}

/// A value without members, and `..` for another one.
fn write_plain(line: &mut Line, value: &Value) -> Result<(), NoMemory> {
    match value {
        Value::Cell(id) => write_part(line, *id),
        Value::Node(Node::Empty) => line.append(b"()"),
        Value::Node(Node::Range { at, end, .. }) => {
            write_number(line, *at)?;
            line.append(b"..")?;
            write_number(line, *end)
        }
        other => {
            if !print_atom(other, line)? {
                line.append(b"..")?;
            }
            Ok(())
        }
    }
}

/// One of the items, which are values without members.
fn write_plain_at(line: &mut Line, items: &PVec<Value>, at: usize) -> Result<(), NoMemory> {
    match items.get(at) {
        Some(item) => write_plain(line, item),
        None => Ok(()),
    }
}

/// Items that are values without members, from a place on.
fn write_plains(line: &mut Line, items: &PVec<Value>, from: usize) -> Result<(), NoMemory> {
    let count = items.len();
    for at in from..count {
        if at > from {
            line.append(b" ")?;
        }
        write_plain_at(line, items, at)?;
    }
    Ok(())
}

/// The same, from the last one on.
fn write_plains_back(line: &mut Line, items: &PVec<Value>) -> Result<(), NoMemory> {
    let count = items.len();
    for at in 0..count {
        if at > 0 {
            line.append(b" ")?;
        }
        write_plain_at(line, items, count - 1 - at)?;
    }
    Ok(())
}

/// The first and the last one.
fn write_ends(
    line: &mut Line,
    items: &PVec<Value>,
    first: usize,
    last: usize,
) -> Result<(), NoMemory> {
    write_plain_at(line, items, first)?;
    line.append(b" .. ")?;
    write_plain_at(line, items, last)
}

/// The items from a place on, or the first and the last of many.
fn write_some(line: &mut Line, items: &PVec<Value>, from: usize) -> Result<(), NoMemory> {
    let count = items.len();
    if from < count && count - from > 4 {
        return write_ends(line, items, from, count - 1);
    }
    write_plains(line, items, from)
}

/// The items from the last one on, or the last and the first of many.
fn write_some_back(line: &mut Line, items: &PVec<Value>) -> Result<(), NoMemory> {
    let count = items.len();
    if count > 4 {
        return write_ends(line, items, count - 1, 0);
    }
    write_plains_back(line, items)
}

/// A value with its members.
fn write_member(line: &mut Line, value: &Value) -> Result<(), NoMemory> {
    match value {
        Value::Vector { items, .. } => {
            line.append(b"[")?;
            write_some(line, items, 0)?;
            line.append(b"]")
        }
        Value::Node(Node::VecSeq { items, at, .. }) => {
            line.append(b"{")?;
            write_some(line, items, *at as usize)?;
            line.append(b"}")
        }
        Value::Node(Node::Cons { heads, .. }) => {
            line.append(b"(")?;
            write_some_back(line, heads)?;
            line.append(b")")
        }
        other => write_plain(line, other),
    }
}

fn write_member_at(line: &mut Line, items: &PVec<Value>, at: usize) -> Result<(), NoMemory> {
    match items.get(at) {
        Some(item) => write_member(line, item),
        None => Ok(()),
    }
}

/// The items, each with its members.
fn write_members(line: &mut Line, items: &PVec<Value>) -> Result<(), NoMemory> {
    let count = items.len();
    if count > 4 {
        write_member_at(line, items, 0)?;
        line.append(b" .. ")?;
        return write_member_at(line, items, count - 1);
    }
    for at in 0..count {
        if at > 0 {
            line.append(b" ")?;
        }
        write_member_at(line, items, at)?;
    }
    Ok(())
}

/// The elements before a rest, the first one first: one alone with its members.
fn write_heads(line: &mut Line, heads: &PVec<Value>) -> Result<(), NoMemory> {
    if heads.len() == 1 {
        return write_member_at(line, heads, 0);
    }
    write_some_back(line, heads)
}

/// What a rule asks of, or gives: `(1 #2)` is one element before a part, `<1 2 #3>` a chunk before one, `{1 2}` a vector's seq, `4..9` a range.
pub(crate) fn write_value(line: &mut Line, value: &Value) -> Result<(), NoMemory> {
    match value {
        Value::Node(Node::Cons { heads, rest, .. }) => {
            line.append(b"(")?;
            write_heads(line, heads)?;
            line.append(b" ")?;
            write_plain(line, rest.get())?;
            line.append(b")")
        }
        Value::Node(Node::Chunk { items, rest, .. }) => {
            line.append(b"<")?;
            write_members(line, items)?;
            line.append(b" ")?;
            write_plain(line, rest.get())?;
            line.append(b">")
        }
        other => write_member(line, other),
    }
}

fn op_name(op: Op) -> &'static [u8] {
    match op {
        Op::Map => b"map".as_slice(),
        Op::MapN => b"map-n".as_slice(),
        Op::Filter => b"filter".as_slice(),
        Op::Keep => b"keep".as_slice(),
        Op::Take => b"take".as_slice(),
        Op::TakeWhile => b"take-while".as_slice(),
        Op::Drop => b"drop".as_slice(),
        Op::DropWhile => b"drop-while".as_slice(),
        Op::Concat => b"concat".as_slice(),
        Op::Mapcat => b"mapcat".as_slice(),
        Op::Next => b"next".as_slice(),
        Op::Repeat => b"repeat".as_slice(),
        Op::Cycle => b"cycle".as_slice(),
        Op::Parts => b"parts".as_slice(),
        Op::Pull => b"pull".as_slice(),
        Op::Rets => b"rets".as_slice(),
        Op::Step => b"step".as_slice(),
        Op::Derefs => b"derefs".as_slice(),
        Op::Call => b"call".as_slice(),
        Op::Ahead => b"ahead".as_slice(),
        Op::AheadOf => b"ahead-of".as_slice(),
        Op::Near => b"near".as_slice(),
        Op::Fold => b"fold".as_slice(),
        Op::Body(_) => b"body".as_slice(),
    }
}

/// A part that is made: `map[#fn 0..9]#1`, behind `~` where it is a future.
pub(crate) fn write_term(line: &mut Line, kind: Kind, term: &Term) -> Result<(), NoMemory> {
    match kind {
        Kind::Lazy => {}
        Kind::Future => line.append(b"~")?,
    }
    line.append(op_name(term.op))?;
    line.append(b"[")?;
    write_members(line, &term.args)?;
    line.append(b"]")
}

/// `! arity`
pub(crate) fn write_thrown(line: &mut Line, why: Thrown) -> Result<(), NoMemory> {
    line.append(b"! ")?;
    line.append(seq_base::word_of(why))
}
