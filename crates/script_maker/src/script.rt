//! The text of a script that is made from a number.
ghost use Rattle.std.specs.Prelude.{◌≡◌, ◌++◌, codes, IfOk, OnOk};
ghost use Rattle.std.specs.String.{string_bytes};
ghost use Rattle.seq_table.specs.Generated.{generated, lines_of_kind, steps_from};
ghost use Rattle.seq_table.specs.Outputs.{decimal};
ghost use Rattle.script_maker.specs.Steps.{lines_of_step};

use crate::kinds::{Kind, Step, step_of};
use crate::numbers::Numbers;
use seq_vector::NoMemory;
use std::alloc::{AllocError, Global};

/// The script with this many steps: definitions and folds of pseudo-random kinds and sizes, and the ledger at its end. One number always gives one text.
///
/// # Errors
///
/// `NoMemory` where the text has no room.
pub fn generate(alloc: Global, steps: u32) -> Result<Vec<u8>, NoMemory>
    ensures made { IfOk result (λ text. text.items ≡ generated steps) }
{
    match script_text(alloc, steps) {
        Ok(text) => Ok(text.into_bytes()),
        Err(_) => Err(NoMemory),
    }
}

/// The text of the script with this many steps.
fn script_text(alloc: Global, steps: u32) -> Result<String, AllocError>
    ensures { IfOk result (λ text. string_bytes text ≡ generated steps) }
{
    let mut text = String::new(alloc);
    write_steps(steps, &mut text)?;
    text.push_str("(ledger)\n")?;
    Ok(text)
}

#[tactic(auto, using(crate::proofs::Steps::no_steps, crate::proofs::Steps::one_more_step, crate::proofs::Steps::all_steps))]
/// Writes the lines of all steps.
fn write_steps(steps: u32, text: &mut String) -> Result<(), AllocError>
    ensures { OnOk result (string_bytes text.new ≡ string_bytes text.old ++ steps_from steps 1 steps) }
{
    let mut numbers = Numbers::new(steps);
    for before in 0..steps {
        let step = step_of(numbers.next());
        write_step(before + 1, step, text)?;
    }
    Ok(())
}

/// Writes the lines of a step, which has this number.
fn write_step(number: u32, step: Step, text: &mut String) -> Result<(), AllocError>
    ensures { OnOk result (string_bytes text.new ≡ string_bytes text.old ++ lines_of_step number step) }
{
    match step.kind {
        Kind::Mapped => write_mapped(number, step.size, text),
        Kind::Filtered => write_filtered(number, step.size, text),
        Kind::Ahead => write_ahead(number, step.size, text),
        Kind::Folded => write_folded(step.size, text),
    }
}

/// Writes a mapped range, and the sum of its first half.
fn write_mapped(number: u32, size: u32, text: &mut String) -> Result<(), AllocError>
    ensures { OnOk result (string_bytes text.new ≡ string_bytes text.old ++ lines_of_kind 0 number size) }
{
    let half = size / 2;
    write!(
        text,
        "(def s{number} (map inc (range {size})))\n(prn (reduce + (take {half} s{number})))\n"
    )?;
    Ok(())
}

/// Writes the even numbers of a mapped range, and how many they are.
fn write_filtered(number: u32, size: u32, text: &mut String) -> Result<(), AllocError>
    ensures { OnOk result (string_bytes text.new ≡ string_bytes text.old ++ lines_of_kind 1 number size) }
{
    write!(
        text,
        "(def s{number} (filter even? (map inc (range {size}))))\n(prn (count s{number}))\n"
    )?;
    Ok(())
}

/// Writes a range that is mapped ahead, and its first element.
fn write_ahead(number: u32, size: u32, text: &mut String) -> Result<(), AllocError>
    ensures { OnOk result (string_bytes text.new ≡ string_bytes text.old ++ lines_of_kind 2 number size) }
{
    write!(
        text,
        "(def s{number} (pmap inc (range {size})))\n(prn (first s{number}))\n"
    )?;
    Ok(())
}

/// Writes a fold of a vector.
fn write_folded(size: u32, text: &mut String) -> Result<(), AllocError>
    ensures { OnOk result (string_bytes text.new ≡ string_bytes text.old ++ (codes "(prn (r/fold 8 + + (vec (range " ++ decimal size ++ codes "))))\n")) }
{
    write!(text, "(prn (r/fold 8 + + (vec (range {size}))))\n")?;
    Ok(())
}
