//! Why a script isn't run, the line that says so, and the statuses of a run.
#![tactic(auto)]

mod print;
mod script;
mod status;

pub use print::print_refusal;
pub use script::{Refusal, ScriptStop};
pub use status::Status;
