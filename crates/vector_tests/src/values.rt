ghost use Rattle.std.specs.Prelude.{◌≡◌, [], ◌∷◌, pos, true, false, Some, None};
ghost use Rattle.seq_values.specs.declared.value.Node.TheOpen.{Node-F};
ghost use Rattle.seq_values.specs.Sight.{left, group_of, a_nil, a_bool, an_int, a_vector, a_cell, a_cons, a_function};
ghost use Rattle.seq_values.specs.WellFormed.{good, node_seen, binds};
ghost use Rattle.seq_values.specs.WellFormedTerms.{takes};

use crate::help::{pushed, refused, shared};
use seq_values::{
    Builtin, CellId, FnValue, FolderKind, Held, Line, Node, Op, Target, Term, Text, Value, XfKind,
    print_atom,
};
use seq_vector::{PVec, Share};
use std::alloc::Global;
use std::test::Fail;

fn text(alloc: Global, bytes: &[u8]) -> Result<Text, Fail> {
    Text::of(alloc, bytes).map_err(|_| Fail::from("no memory"))
}

/// The vector of one atom.
fn alone(alloc: Global, item: Value) -> Result<Value, Fail> {
    let items = pushed(alloc, &PVec::new(), item)?;
    Ok(Value::Vector { depth: 1, items })
}

/// Whether a value is an atom with this text, or no atom and the text is empty.
fn is_shown(alloc: Global, value: &Value, text: &str) -> Result<bool, Fail> {
    let mut line = Line::new(alloc);
    match print_atom(value, &mut line) {
        Ok(is_atom) => Ok(is_atom != text.is_empty() && line.bytes() == text.as_bytes()),
        Err(_) => Err(Fail::from("no memory")),
    }
}

/// The same, and gives the value up.
fn shows(alloc: Global, value: Value, text: &str) -> Result<bool, Fail> {
    let answer = is_shown(alloc, &value, text);
    drop(value);
    answer
}

/// The same value with one owner more, and gives the first owner up.
fn passed<T: Share>(value: T) -> Result<T, Fail> {
    let other = shared(&value);
    drop(value);
    other
}

/// Whether the value is the integer 1.
fn is_one(value: &Value) -> bool {
    matches!(value, Value::Int(1))
}

/// Whether the value is a vector of the integer 1 alone.
fn is_one_alone(value: &Value) -> bool {
    match value {
        Value::Vector { items, .. } => {
            items.len() == 1 && matches!(items.get(0), Some(Value::Int(1)))
        }
        _ => false,
    }
}

/// Whether the value is the function `inc`.
fn is_inc(value: &Value) -> bool {
    match value {
        Value::Function(function) => function.target == Target::Builtin(Builtin::Inc),
        _ => false,
    }
}

#[test]
fn shares_a_held_value(rt: HostRuntime) -> Result<(), Fail> {
    let one = passed(Held::of(rt.alloc(), Value::Int(1)).map_err(refused)?)?;
    assert!(rt; is_one(one.get()));
    Ok(())
}

#[test]
fn shares_a_text(rt: HostRuntime) -> Result<(), Fail> {
    let a = passed(text(rt.alloc(), b"a")?)?;
    assert_eq!(rt; a.bytes(), b"a".as_slice());
    Ok(())
}

#[test]
fn shares_an_integer(rt: HostRuntime) -> Result<(), Fail> {
    let one = passed(Value::Int(1))?;
    let is_one = is_one(&one);
    drop(one);
    assert!(rt; is_one);
    Ok(())
}

#[test]
fn shares_a_vector(rt: HostRuntime) -> Result<(), Fail> {
    let one = passed(alone(rt.alloc(), Value::Int(1))?)?;
    let is_one = is_one_alone(&one);
    drop(one);
    assert!(rt; is_one);
    Ok(())
}

#[test]
fn shares_a_node(rt: HostRuntime) -> Result<(), Fail> {
    let node = passed(Node::range(1, 1))?;
    let is_empty = matches!(node, Node::Empty);
    drop(node);
    assert!(rt; is_empty);
    Ok(())
}

#[test]
fn shares_a_function(rt: HostRuntime) -> Result<(), Fail> {
    let word = passed(Value::Function(FnValue::word(Builtin::Inc)))?;
    let is_inc = is_inc(&word);
    drop(word);
    assert!(rt; is_inc);
    Ok(())
}

#[test]
fn shares_a_term(rt: HostRuntime) -> Result<(), Fail> {
    let args = pushed(rt.alloc(), &PVec::new(), Value::Int(1))?;
    let term = passed(Term {
        op: Op::Repeat,
        args,
    })?;
    let is_whole = term.op == Op::Repeat && term.args.len() == 1;
    drop(term);
    assert!(rt; is_whole);
    assert!(rt; CellId::of(0).is_none());
    Ok(())
}

/// Whether atoms show their text.
fn shows_atoms(alloc: Global) -> Result<bool, Fail> {
    Ok(
        shows(alloc, Value::Nil, "nil")?
            && shows(alloc, Value::Bool(true), "true")?
            && shows(alloc, Value::Bool(false), "false")?
            && shows(alloc, Value::Int(-5), "-5")?
            && shows(alloc, Value::Int(i64::MIN), "-9223372036854775808")?
            && shows(alloc, Value::Function(FnValue::word(Builtin::Inc)), "#fn")?
            && shows(alloc, Value::Node(Node::Empty), "")?,
    )
}

/// Whether keywords and texts show theirs, and a vector none.
fn shows_texts(alloc: Global) -> Result<bool, Fail> {
    let escapes = text(alloc, b"a\n\t\r\x0c\x08\"\\z")?;
    Ok(
        shows(alloc, Value::Text(escapes), "\"a\\n\\t\\r\\f\\b\\\"\\\\z\"")?
            && shows(alloc, Value::Keyword(text(alloc, b"k")?), ":k")?
            && shows(alloc, alone(alloc, Value::Nil)?, "")?,
    )
}

#[test]
fn prints(rt: HostRuntime) -> Result<(), Fail> {
    assert!(rt; shows_atoms(rt.alloc())?);
    assert!(rt; shows_texts(rt.alloc())?);
    Ok(())
}

/// Which nodes stand, by what is seen of their parts.
fn nodes_that_stand()
    ensures range { (node_seen (Node-F.Range (pos 1) (pos 2) (pos 3))).stands ≡ true }
    ensures empty_range { (node_seen (Node-F.Range (pos 1) (pos 3) (pos 3))).stands ≡ false }
    ensures range_before_its_start { (node_seen (Node-F.Range (pos 2) (pos 1) (pos 3))).stands ≡ false }
    ensures cons { (node_seen (Node-F.Cons 1 (good a_bool ∷ []) (good a_nil))).stands ≡ true }
    ensures no_heads { (node_seen (Node-F.Cons 1 [] (good a_nil))).stands ≡ false }
    ensures cons_on_cons { (node_seen (Node-F.Cons 1 (good a_bool ∷ []) (good a_cons))).stands ≡ false }
    ensures chunk { (node_seen (Node-F.Chunk 1 (good a_bool ∷ []) (good a_cell))).stands ≡ true }
    ensures chunk_on_nil { (node_seen (Node-F.Chunk 1 (good a_bool ∷ []) (good a_nil))).stands ≡ false }
    ensures last_place { (node_seen (Node-F.VecSeq 1 (good a_bool ∷ []) 0)).stands ≡ true }
    ensures place_at_the_end { (node_seen (Node-F.VecSeq 1 (good a_bool ∷ []) 1)).stands ≡ false }
{}

/// What functions bind and terms take, by what is seen of the arguments.
fn arguments_that_fit()
    ensures word { binds (Target.Builtin Builtin.Inc) (a_nil ∷ []) ≡ false }
    ensures comp { binds Target.Comp [] ≡ false }
    ensures take { binds (Target.Xf XfKind.Take) (an_int (pos 0) ∷ []) ≡ true }
    ensures take_of_nil { binds (Target.Xf XfKind.Take) (a_nil ∷ []) ≡ false }
    ensures no_size { binds (Target.Xf XfKind.PartitionAll) (an_int (pos 0) ∷ []) ≡ false }
    ensures reducer { binds (Target.Folder FolderKind.Map) (a_nil ∷ a_nil ∷ []) ≡ true }
    ensures two_collections { takes Op.MapN (a_nil ∷ a_nil ∷ a_nil ∷ []) ≡ true }
    ensures one_collection { takes Op.MapN (a_nil ∷ a_nil ∷ []) ≡ false }
    ensures pull { takes Op.Pull (a_function Target.Comp (Some (left ∷ group_of (pos 2) ∷ [])) ∷ a_nil ∷ an_int (pos 3) ∷ a_vector 1 ∷ []) ≡ true }
    ensures full_group { takes Op.Pull (a_function Target.Comp (Some (left ∷ group_of (pos 2) ∷ [])) ∷ a_nil ∷ an_int (pos 3) ∷ a_vector 2 ∷ []) ≡ false }
    ensures no_transducer { takes Op.Pull (a_function Target.Partial None ∷ a_nil ∷ []) ≡ false }
    ensures near { takes Op.Near (a_nil ∷ a_cell ∷ []) ≡ true }
    ensures near_no_cell { takes Op.Near (a_nil ∷ a_nil ∷ []) ≡ false }
{}
