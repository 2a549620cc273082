/// The bounds of a run. They are part of a script's meaning.
#[derive(Clone, Copy, Debug, PartialEq, Eq)]
pub struct Limits {
    /// How many parts may be made.
    pub cells: u32,
    /// How many own steps an evaluation may take.
    pub steps: u32,
    /// The processor count that `pmap` goes by.
    pub processors: u32,
}
