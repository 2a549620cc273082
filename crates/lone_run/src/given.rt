//! What an evaluation comes to.

use seq_base::Thrown;
use seq_values::Value;

/// What a form or a part came to.
#[derive(Drop)]
pub(crate) enum Given {
    /// A value.
    Gave(Value),
    /// An error.
    Threw(Thrown),
}

/// Why an evaluation came to nothing.
#[derive(Clone, Copy, Debug, PartialEq, Eq)]
pub(crate) enum Halt {
    /// The parts passed the cell limit.
    Spent,
    /// Memory ran out.
    Memory,
}
