ghost use Rattle.std.specs.Prelude.{◌≡◌, length, slice_get};

use seq_values::{Builtin, Value};
use std::marker::Model;

/// Numbers of expressions in order. Contracts see the list of them.
#[derive(Debug, Drop)]
pub struct Numbers {
    items: Vec<u32>,
}

impl Model for Numbers {
    ghost use Rattle.std.specs.Prelude.{List, ℕ};

    ghost Value = { List ℕ };

    ghost view = { λ numbers. numbers.items.items };
}

impl Numbers {
    /// These numbers.
    pub(crate) fn of(items: Vec<u32>) -> Numbers
        ensures { result ≡ items.items }
    {
        Numbers { items }
    }

    /// How many there are.
    pub fn len(&self) -> usize
        ensures { result ≡ length self.now }
    {
        self.items.len()
    }

    /// The number at a place from 0, and `None` exactly where the place isn't below the length.
    pub fn get(&self, at: usize) -> Option<u32>
        ensures { result ≡ slice_get self.now at }
    {
        self.items.get(at).copied()
    }
}

/// An expression of a program. It names others by their numbers, which are lower than its own.
#[derive(Drop)]
pub enum Expr {
    Literal(Value),
    /// A built-in word.
    Word(Builtin),
    /// A function of the program, by its number from 0.
    Function(u32),
    /// The value of the `def` form with this number, from 1.
    Defined { form: u32 },
    /// A local in scope by its number from 0, the outermost first and parameters before the rest.
    Local(u32),
    Vector(Numbers),
    Call { head: u32, args: Numbers },
    /// Binds one more local for the body.
    Let { value: u32, body: u32 },
    If { test: u32, yes: u32, no: u32 },
    And(Numbers),
    Or(Numbers),
    /// A lazy part over all locals in scope, by the number of its body from 0.
    LazySeq { body: u32 },
}
