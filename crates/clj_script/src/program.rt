ghost use Rattle.std.specs.Prelude.{◌≡◌, length, true};
ghost use Rattle.clj_script.specs.Arena.{AllBelow, AllBelow-prop, LowerFrom, LowerFrom-prop};
ghost use Rattle.clj_script.specs.Nodes.{parts_of, are_writable};
ghost use Rattle.clj_script.specs.Numbered.{AreBodiesBelow, AreBodiesBelow-prop, AreTopsBelow, AreTopsBelow-prop};

use crate::definitions::Definitions;
use crate::expr::Expr;
use seq_vector::Shared;

/// A form at the top of a script.
#[derive(Clone, Copy, Debug, PartialEq, Eq)]
pub enum Top {
    /// Defines the name with this number, from 0, as the value of an expression.
    Def { name: u32, expr: u32 },
    /// Defines a function.
    Defn,
    /// Writes the value of an expression.
    Prn { expr: u32 },
    /// Writes the ledger.
    Ledger,
}

/// A body of a function.
#[derive(Clone, Copy, Debug, PartialEq, Eq)]
pub(crate) struct Body {
    /// How many parameters it has.
    pub(crate) parameters: u32,
    pub(crate) expr: u32,
}

/// What a program is made of.
#[derive(Drop)]
pub(crate) struct Parts {
    pub(crate) nodes: Vec<Expr>,
    pub(crate) functions: Vec<Vec<Body>>,
    pub(crate) bodies: Vec<u32>,
    pub(crate) definitions: Definitions,
    pub(crate) tops: Vec<Top>,
    /// How many forms there are.
    pub(crate) count: u32,
    // Each expression names only expressions of lower numbers.
    ghost lower: { LowerFrom parts_of 0 nodes.items } by { LowerFrom-prop parts_of 0 nodes.items },
    // Each literal is a value that a script can write.
    ghost written: { are_writable nodes.items ≡ true },
    // The expressions that functions, `lazy-seq`s and forms name are there.
    ghost in_functions: { AreBodiesBelow (length nodes.items) (λ bodies. bodies.items) functions.items } by { AreBodiesBelow-prop (length nodes.items) (λ bodies. bodies.items) functions.items },
    ghost in_bodies: { AllBelow (length nodes.items) bodies.items } by { AllBelow-prop (length nodes.items) bodies.items },
    ghost in_tops: { AreTopsBelow (length nodes.items) tops.items } by { AreTopsBelow-prop (length nodes.items) tops.items },
    ghost counted: { count ≡ length tops.items },
}

/// A script that was compiled: its functions, the bodies of its `lazy-seq`s, its names and its forms.
#[derive(Drop)]
pub struct Program {
    pub(crate) parts: Shared<Parts>,
}
