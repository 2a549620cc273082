//! The calls on any cells by a work that is on its run: how far each work has come afterwards, and that the book stays lawful with all that it
//! holds well formed. Nothing is asked of a caller but where its work is and that the book is so.
#![tactic(auto)]

mod asks;
mod ends;
mod stop;

pub use asks::{add, ask, see, start};
pub use ends::{begin, end, finish, lose};
pub use stop::Stop;
