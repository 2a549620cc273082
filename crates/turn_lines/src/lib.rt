//! What rules ask at their turns, as lines of text, and the answers of a small world: what the tests of rules share.
#![tactic(auto)]

mod answers;
mod arguments;
mod keeping;
mod record;
mod shown;

pub use answers::{Elements, called, needed, sought};
pub use arguments::{Arg, values_of};
pub use keeping::{Keeper, Kept};
pub use record::Record;
