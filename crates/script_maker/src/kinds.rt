//! What a step of a script does, by the number that it is made from.
ghost use Rattle.std.specs.Prelude.{◌≡◌, ◌≤◌, ℕ};
ghost use Rattle.seq_table.specs.Generated.{lines_at};
ghost use Rattle.script_maker.specs.Steps.{lines_of_step, number_of};

/// The four kinds of step.
#[derive(Clone, Copy)]
pub(crate) enum Kind {
    /// A mapped range, and the sum of its first half.
    Mapped,
    /// The even numbers of a mapped range, and how many they are.
    Filtered,
    /// A range that is mapped ahead, and its first element.
    Ahead,
    /// A fold of a vector.
    Folded,
}

/// A step: its kind and the size of its range.
#[derive(Clone, Copy)]
pub(crate) struct Step {
    pub(crate) kind: Kind,
    pub(crate) size: u32,
}

/// The step that a number gives: its upper bits give the kind, and the size from 1 to 100.
pub(crate) fn step_of(number: u32) -> Step
    ensures { (i : ℕ) → lines_of_step i result ≡ lines_at i number }
{
    let upper = number / 65_536;
    Step {
        kind: kind_of(upper % 4),
        size: upper / 4 % 100 + 1,
    }
}

/// The kind with this number.
fn kind_of(number: u32) -> Kind
    requires { number ≤ 3 }
    ensures { number_of result ≡ number }
{
    match number {
        0 => Kind::Mapped,
        1 => Kind::Filtered,
        2 => Kind::Ahead,
        _ => Kind::Folded,
    }
}
