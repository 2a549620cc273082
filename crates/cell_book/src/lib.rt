//! The book of cells: parts and forms, the claims on them, and the calls by which they are made, claimed and ended.
#![tactic(auto)]

mod answers;
mod attempts;
mod book;
mod cell;
mod cells;
mod claims;
mod plain;
mod readers;
mod settled;
mod totals;
mod work;

pub use answers::{ClaimRefusal, Look, MakeRefusal, Totals};
pub use attempts::Attempts;
pub use book::Book;
pub use cell::{Attempt, Cell, ClaimEnd, Form, State};
pub use cells::{CellLaw, Cells};
pub use plain::PlainCells;
pub use work::{Place, Work};
