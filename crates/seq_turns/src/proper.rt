ghost use Rattle.std.specs.Prelude.{◌≤◌, length, IsTrue};
ghost use Rattle.seq_values.specs.WellFormed.{is_well_formed, are_well_formed};

use seq_values::Value;
use seq_vector::PVec;

/// A well-formed value.
#[derive(Drop)]
pub struct Proper {
    pub value: Value,
    ghost well: { IsTrue (is_well_formed value) },
}

/// Well-formed values.
#[derive(Drop)]
pub struct ProperList {
    pub items: PVec<Value>,
    ghost well: { IsTrue (are_well_formed items) },
}

/// Well-formed values that are gathered one after another, not more than a vector may have.
#[derive(Drop)]
pub struct Gathered {
    pub items: Vec<Value>,
    ghost well: { IsTrue (are_well_formed items.items) },
    ghost few: { length items.items ≤ 4294967295 },
}
