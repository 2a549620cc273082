//! Pseudo-random numbers, each made from the one before.
ghost use Rattle.std.specs.Prelude.{◌≡◌};
ghost use Rattle.seq_table.specs.Generated.{next_number};

use std::marker::Model;

/// A row of pseudo-random numbers. Contracts see it as the number that was given last, or the one that it began with.
#[derive(Drop)]
pub(crate) struct Numbers {
    last: u32,
}

impl Model for Numbers {
    ghost use Rattle.std.specs.Prelude.{ℕ};

    ghost Value = { ℕ };

    ghost view = { λ numbers. numbers.last };
}

impl Numbers {
    /// The row that begins with this number.
    pub(crate) fn new(first: u32) -> Numbers
        ensures { result ≡ first }
    {
        Numbers { last: first }
    }

    /// The next number of the row.
    pub(crate) fn next(&mut self) -> u32
        ensures given { result ≡ next_number self.old }
        ensures kept { self.new ≡ next_number self.old }
    {
        let product = self.last as u64 * 1_103_515_245;
        let number = ((product + 12_345) % 2_147_483_648) as u32;
        self.last = number;
        number
    }
}
