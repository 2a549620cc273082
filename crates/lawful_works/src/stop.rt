//! How the evaluation of a work stops.

use seq_base::Thrown;

/// Why the evaluation of a work gives no value.
#[derive(Clone, Copy, Debug, PartialEq, Eq)]
pub enum Stop {
    /// The work ended with this error, which the book has.
    Thrown(Thrown),
    /// As many parts as the limit allows were made, and one more was to be made.
    Spent,
    /// A work was given up before, so no part is claimed any more.
    GaveUp,
    /// Memory ran out.
    Memory,
}
