//! Values for tests by short names, and a text that tells how a value is built.
#![tactic(auto)]

mod kinds;
mod making;
mod showing;

pub use kinds::Sample;
pub use making::{samples, seq_of, value_made};
pub use showing::show;
