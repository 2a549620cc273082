//! The settings of a command line, and their numbers.
ghost use Rattle.std.specs.Prelude.{◌≡◌, ◌≤◌, length, option_and_then};
ghost use Rattle.command_line.specs.Settings.{in_range, number_by, value_from};

/// A setting of the command line.
#[derive(Clone, Copy, Debug, PartialEq, Eq)]
pub enum Setting {
    /// `--check`: the script is read and compiled, and isn't run.
    Check,
    /// `--generate N`: a script that is made from a number.
    Generate(u32),
    /// `--workers W`.
    Workers(u32),
    /// `--processors P`.
    Processors(u32),
    /// `--cells N`: the cell limit.
    Cells(u32),
    /// `--steps N`: the limit of own steps.
    Steps(u32),
}

/// The number that a text spells, where it is in the range.
pub(crate) fn number_in(text: &str, least: u32, most: u32) -> Option<u32>
    ensures { result ≡ option_and_then (in_range least most) (number_by text.now) }
{
    within(least, most, number_of(text.as_bytes())?)
}

/// The number, where it is in the range.
fn within(least: u32, most: u32, number: u64) -> Option<u32>
    ensures { result ≡ in_range least most number }
{
    if least as u64 <= number && number <= most as u64 {
        Some(number as u32)
    } else {
        None
    }
}

/// The number that 1 to 10 digits spell. `None` for any other text.
fn number_of(text: &[u8]) -> Option<u64>
    ensures { result ≡ number_by text.now }
{
    if text.is_empty() || text.len() > 10 {
        return None;
    }
    value_of(text)
}

#[tactic(auto, using(crate::proofs::Numbers::one_digit, crate::proofs::Numbers::no_digit))]
/// The number that digits spell. `None` where another byte stands among them.
fn value_of(text: &[u8]) -> Option<u64>
    requires { length text.now ≤ 10 }
    ensures { result ≡ value_from 0 text.now }
{
    let mut value = 0u64;
    for byte in text {
        if !byte.is_ascii_digit() {
            return None;
        }
        value = 10 * value + (*byte - b'0') as u64;
    }
    Some(value)
}
