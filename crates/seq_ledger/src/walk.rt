//! How many elements of a value are there already: the walk goes on behind a part only where it has a value.
ghost use Rattle.std.specs.Prelude.{◌≡◌, ℕ, true, IfOk};
ghost use Rattle.cell_book.specs.Account.{Account, cell_at};
ghost use Rattle.cell_book.specs.Steps.{shown};
ghost use Rattle.seq_ledger.specs.Walks.{ComesToEnd, FrontIn, IsBehind, IsShort, IsStep};
ghost use Rattle.seq_values.specs.Plain.{plain};

use crate::nodes::meets;
use crate::state::{Front, Met, Onward, Step};
use cell_book::{Cells, Look};
use seq_values::{CellId, Value};
use seq_vector::{NoMemory, Share};

/// How many elements of a value can be reached through parts that have a value, and whether the end can. It looks at parts, and asks and changes none.
/// The cells have to know the whole book, and the walk has to come to its end in it. It takes time linear in the nodes and parts that it passes.
///
/// # Errors
///
/// `NoMemory` where the value of a part can't be shared. The book is as it was.
pub fn front<C: Cells>(cells: &mut C, value: &Value) -> Result<Front, NoMemory>
    requires ready { C.ready cells.old }
    requires leads { C.leads cells.old ≡ true }
    requires ends { (a : Account) × C.noted cells.old a × ComesToEnd a (plain value.now) }
    ensures front { (a : Account) → C.noted cells.old a → IfOk result (λ f. FrontIn a (plain value.now) f.count f.ended) }
    ensures noted { (a : Account) → C.noted cells.old a → C.noted cells.new a }
    ensures held { (c : ℕ) → C.held cells.new c ≡ C.held cells.old c }
    ensures same { C.same cells.old cells.new }
{
    let mut at = value.share()?;
    let mut count = 0u128;
    for _taken in 0..u64::MAX {
        let step = step_from(cells, &at)?;
        count += step.count as u128;
        match step.then {
            Onward::At(next) => at = next,
            Onward::Over(ended) => return Ok(Front { count, ended }),
        }
    }
    unreachable!()
}

#[tactic(auto, using(crate::proofs::Walking::step_last, crate::proofs::Walking::step_more, crate::proofs::Walking::step_part, crate::proofs::Walking::step_nothing))]
/// The first step of the walk from a value.
fn step_from<C: Cells>(cells: &mut C, value: &Value) -> Result<Step, NoMemory>
    requires ready { C.ready cells.old }
    requires leads { C.leads cells.old ≡ true }
    requires noted { (a : Account) × C.noted cells.old a }
    ensures step { (a : Account) → C.noted cells.old a → IfOk result (λ s. IsStep a (plain value.now) s) }
    ensures short { IfOk result (λ s. IsShort s) }
    ensures noted { (a : Account) → C.noted cells.old a → C.noted cells.new a }
    ensures held { (c : ℕ) → C.held cells.new c ≡ C.held cells.old c }
    ensures same { C.same cells.old cells.new }
{
    match meets(value)? {
        Met::Last(count) => Ok(Step {
            count,
            then: Onward::Over(true),
        }),
        Met::More(count, rest) => Ok(Step {
            count: count as u64,
            then: Onward::At(rest),
        }),
        Met::Part(id) => {
            let then = behind(cells, id)?;
            Ok(Step { count: 0, then })
        }
        Met::Nothing => Ok(Step {
            count: 0,
            then: Onward::Over(false),
        }),
    }
}

/// What stands behind a part.
fn behind<C: Cells>(cells: &mut C, id: CellId) -> Result<Onward, NoMemory>
    requires ready { C.ready cells.old }
    requires leads { C.leads cells.old ≡ true }
    requires noted { (a : Account) × C.noted cells.old a }
    ensures behind { (a : Account) → C.noted cells.old a → IfOk result (λ o. IsBehind a id o) }
    ensures noted { (a : Account) → C.noted cells.old a → C.noted cells.new a }
    ensures held { (c : ℕ) → C.held cells.new c ≡ C.held cells.old c }
    ensures same { C.same cells.old cells.new }
{
    let look = cells.look(id)?;
    Ok(after(look))
}

#[tactic(auto, using(crate::proofs::Looking::done_shown, crate::proofs::Looking::empty_open, crate::proofs::Looking::forcing_open, crate::proofs::Looking::failed_open, crate::proofs::Looking::unknown_open))]
/// What comes after a look: the part's value, or nothing where it has none.
fn after(look: Look) -> Onward
    ensures { (a : Account) (id : ℕ) → look ≡ shown (cell_at a id) → IsBehind a id result }
{
    match look {
        Look::Done(value) => Onward::At(value),
        Look::Empty => Onward::Over(false),
        Look::Forcing { .. } => Onward::Over(false),
        Look::Failed(_) => Onward::Over(false),
        Look::Unknown => Onward::Over(false),
    }
}
