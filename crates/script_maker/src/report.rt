//! The summary of what a run of a script wrote.
ghost use Rattle.std.specs.Prelude.{◌≡◌, ◌<◌, ◌≤◌, ◌+◌, ◌-◌, ◌^◌, ◌++◌, ℕ, List, length, get_or, slice_range, codes, IfOk};
ghost use Rattle.std.specs.String.{string_bytes};
ghost use Rattle.seq_table.specs.Answers.{forms_line, last_of, lines_of, summary as summary_of};
ghost use Rattle.seq_table.specs.Outputs.{decimal, newline};
ghost use Rattle.script_maker.specs.Walks.{IsAt};

use seq_vector::NoMemory;
use std::alloc::{AllocError, Global};

/// A walk over the bytes of a text, from the first one on.
#[derive(Clone, Copy)]
struct Walk {
    /// How many lines came to their end.
    count: u64,
    /// Where the last line of them begins.
    start: usize,
    /// Where it ends, behind its newline.
    end: usize,
}

impl Walk {
    /// The walk behind one more byte, which is at this place.
    fn behind(self, at: usize, byte: u8) -> Walk
        requires few { self.count ≤ at }
        requires small { at < 2 ^ 64 - 1 }
        ensures { (text : List ℕ) → at < length text → byte ≡ get_or text at 0 → IsAt text at self → IsAt text (at + 1) result }
    {
        if byte == b'\n' {
            Walk {
                count: self.count + 1,
                start: self.end,
                end: at + 1,
            }
        } else {
            self
        }
    }
}

#[tactic(auto, using(crate::proofs::Lines::walk_starts))]
/// The walk over a whole text.
fn walk_of(text: &[u8]) -> Walk
    ensures { IsAt text.now (length text.now) result }
{
    let mut walk = Walk {
        count: 0,
        start: 0,
        end: 0,
    };
    for at in 0..text.len() {
        walk = walk.behind(at, text[at]);
    }
    walk
}

/// The summary of what a run of a script with this many forms wrote: the number of forms, the number of its lines, and the last line if there is one. What stands behind the last newline is no line.
/// It walks over the bytes once, and copies none of them but the last line.
///
/// # Errors
///
/// `NoMemory` where the summary has no room.
pub fn summary(alloc: Global, forms: u32, written: &[u8]) -> Result<Vec<u8>, NoMemory>
    ensures summed { IfOk result (λ text. text.items ≡ summary_of forms written.now) }
{
    match summary_text(alloc, forms, written) {
        Ok(text) => Ok(text),
        Err(_) => Err(NoMemory),
    }
}

#[tactic(auto, using(crate::proofs::Lines::summed_up, crate::proofs::Lines::walk_is_over))]
/// The text of a summary.
fn summary_text(alloc: Global, forms: u32, written: &[u8]) -> Result<Vec<u8>, AllocError>
    ensures { IfOk result (λ text. text.items ≡ summary_of forms written.now) }
{
    let walk = walk_of(written);
    let mut text = count_text(alloc, forms, walk.count)?.into_bytes();
    text.extend_from_slice(&written[walk.start..walk.end])?;
    Ok(text)
}

/// The lines of the counts: how many forms, and how many lines.
fn count_text(alloc: Global, forms: u32, lines: u64) -> Result<String, AllocError>
    ensures { IfOk result (λ text. string_bytes text ≡ forms_line forms ++ codes "lines " ++ decimal lines ++ newline) }
{
    let text = format!(in alloc; "forms {forms}\nlines {lines}\n")?;
    Ok(text)
}
