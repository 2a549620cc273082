//! One open work of the evaluator on a book of cells: it makes parts, asks them and claims them, and ends with what its run comes to.
#![tactic(auto)]

mod beginning;
mod ends;
mod parts;
mod state;

pub use beginning::{begin_work, code_of};
pub use ends::{end_throw, end_value};
pub use parts::{claim, look, make_part};
pub use state::{Asked, Begun, Claimed, Halt};
