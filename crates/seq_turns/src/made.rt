use crate::proper::{Gathered, Proper};
use seq_base::Thrown;

/// A value that was made, or why there may be none.
#[derive(Drop)]
pub enum Made {
    Value(Proper),
    Thrown(Thrown),
}

/// The values with one more, unless they were as many as there may be.
#[derive(Drop)]
pub enum Grown {
    All(Gathered),
    TooMany,
}
