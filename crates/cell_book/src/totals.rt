ghost use Rattle.std.specs.Prelude.{◌≡◌, cond};
ghost use Rattle.cell_book.specs.Counts.{is_done, is_error};

use crate::cell::{ClaimEnd, State};

impl State {
    /// How many parts gave a value by coming to this state.
    pub(crate) fn realised(&self) -> u32
        ensures { result ≡ cond (is_done self.now) 1 0 }
    {
        match self {
            State::Done(_) => 1,
            _ => 0,
        }
    }
}

impl ClaimEnd {
    /// How many evaluations threw by this end.
    pub(crate) fn failed(self) -> u128
        ensures { result ≡ cond (is_error self) 1 0 }
    {
        match self {
            ClaimEnd::Error(_) => 1,
            _ => 0,
        }
    }
}
