use seq_plan::Cursor;

/// How many elements a node has left, where that is known at once. Another node is handed back.
#[derive(Drop)]
pub(crate) enum Counted {
    Whole(u64),
    Walk(Cursor),
}
