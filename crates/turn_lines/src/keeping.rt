//! Which of the parts that a rule makes is run next.
ghost use Rattle.std.specs.Prelude.{IsTrue};
ghost use Rattle.seq_values.specs.WellFormedTerms.{is_well_formed_term};

use seq_values::Term;

/// A part that was made.
#[derive(Drop)]
pub struct Kept {
    pub term: Term,
    ghost well: { IsTrue (is_well_formed_term term) },
}

/// The part that is run next: one with a number that is wanted, where that is made, else the last one.
#[derive(Drop)]
pub struct Keeper {
    part: Option<Kept>,
    is_wanted: bool,
    wanted: (u32, u32),
}

impl Keeper {
    /// No part. The numbers are those of the parts that are wanted.
    pub fn new(wanted: (u32, u32)) -> Keeper {
        Keeper {
            part: None,
            is_wanted: false,
            wanted,
        }
    }

    /// A part was made.
    pub fn keep(&mut self, number: u32, part: Kept) {
        if !self.is_wanted {
            self.is_wanted = number == self.wanted.0 || number == self.wanted.1;
            self.part = Some(part);
        }
    }

    /// The part that is run next, if one was made.
    pub fn take(&mut self) -> Option<Kept> {
        self.is_wanted = false;
        self.part.take()
    }
}
