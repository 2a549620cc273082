//! The ledger: how many elements of each defined sequence are there already, and how many parts were made, realised and failed.
#![tactic(auto)]

mod laws;
mod nodes;
mod state;
mod text;
mod walk;

pub use laws::{law_one_text, law_reads_alike};
pub use state::Front;
pub use text::ledger_text;
pub use walk::front;
