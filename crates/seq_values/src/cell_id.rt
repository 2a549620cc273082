ghost use Rattle.std.specs.Prelude.{◌≡◌, ◌<◌, ◌↔◌, IfSome, IsSome};

use std::marker::Model;

/// The number of a part, from 1. Contracts see it as that number.
#[derive(Clone, Copy, Debug, PartialEq, Eq)]
pub struct CellId {
    number: u32,
}

impl Model for CellId {
    ghost use Rattle.std.specs.Prelude.{ℕ, ◌<◌};

    ghost Value = { ℕ };

    ghost view = { λ id. id.number };

    ghost invariant = { λ id. 0 < id.number };

    ghost inverse = { λ n. record { number = n } };
}

impl CellId {
    /// `None` exactly for 0.
    pub fn of(number: u32) -> Option<CellId>
        ensures same { IfSome result (λ id. id ≡ number) }
        ensures exactly { IsSome result ↔ (0 < number) }
    {
        if number == 0 {
            None
        } else {
            Some(CellId { number })
        }
    }

    /// The number.
    pub fn number(&self) -> u32
        ensures same { result ≡ self.now }
        ensures positive { 0 < result }
    {
        self.number
    }
}
