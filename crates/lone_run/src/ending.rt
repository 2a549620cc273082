//! How a run ends.
use cell_book::Book;

/// How a run ended.
#[derive(Clone, Copy, Debug, PartialEq, Eq)]
pub enum RunEnd {
    /// Every form was run.
    Done,
    /// A `def` threw. No form after it was run.
    DefThrew,
    /// The parts passed the cell limit. Nothing was written for that form, and none after it was run.
    CellsSpent,
    /// The sink failed.
    WriteFault,
    /// Memory ran out.
    NoMemory,
}

/// A run that is over.
#[derive(Drop)]
pub struct LoneRun {
    /// How it ended.
    pub end: RunEnd,
    /// The book that it ran over, where every form was run.
    pub book: Option<Book>,
}
