//! A program is run by a single thread, form by form, over one book.
#![tactic(auto)]

mod ending;
mod evaluator;
mod force;
mod given;
mod line;
mod run;

pub use ending::{LoneRun, RunEnd};
pub use evaluator::Evaluator;
pub use run::run_alone;
