//! The works of a program, evaluated on a book of cells: a stack of open works, of which the top one goes on and each other waits for the one above it.
#![tactic(auto)]

mod asking;
mod beginning;
mod ending;
mod evaluation;
mod forcing;
mod looping;
mod losing;
mod state;
mod stepping;
mod turning;

pub use evaluation::Evaluation;
pub use forcing::force;
pub use state::{Progress, Setting, Stack, Top, Turned, Waiting};
