//! What is looked at in a value.
ghost use Rattle.std.specs.Prelude.{◌≡◌};
ghost use Rattle.fold_rows.specs.Table.{is_reducer};
ghost use Rattle.reducer_values.specs.Layers.{stage_kind};
ghost use Rattle.seq_values.specs.Plain.{plain};
ghost use Rattle.seq_values.specs.declared.value.Value.TheVariants as V;

use seq_values::{FnValue, FolderKind, Node, Target, Value, XfKind};

fn is_reducer_function(function: &FnValue) -> bool
    ensures { result ≡ is_reducer (plain (V.Function function.now)) }
{
    match function.target {
        Target::Folder(_) => function.bound.len() == 2,
        _ => false,
    }
}

/// Whether a value is a reducer value. It looks at the value itself alone.
pub fn is_reducer(value: &Value) -> bool
    ensures { result ≡ is_reducer (plain value.now) }
{
    match value {
        Value::Nil => false,
        Value::Bool(_) => false,
        Value::Int(_) => false,
        Value::Keyword(_) => false,
        Value::Text(_) => false,
        Value::Vector { .. } => false,
        Value::Function(function) => is_reducer_function(function),
        Value::Node(node) => match node {
            Node::Empty => false,
            Node::Cons { .. } => false,
            Node::Chunk { .. } => false,
            Node::Range { .. } => false,
            Node::VecSeq { .. } => false,
        },
        Value::Reduced { .. } => false,
        Value::Cell(_) => false,
    }
}

/// The transducer's stage that acts as a reducer value does that may be split, and `None` for `take` and `take-while`.
pub(crate) fn stage_kind(kind: FolderKind) -> Option<XfKind>
    ensures { result ≡ stage_kind kind }
{
    match kind {
        FolderKind::Map => Some(XfKind::Map),
        FolderKind::Filter => Some(XfKind::Filter),
        FolderKind::Remove => Some(XfKind::Remove),
        FolderKind::Mapcat => Some(XfKind::Mapcat),
        FolderKind::Take => None,
        FolderKind::TakeWhile => None,
    }
}
