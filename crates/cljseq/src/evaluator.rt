//! Whoever evaluates the works of a run: the evaluator over the rules of the whole language.
ghost use Rattle.std.specs.Prelude.{◌≡◌};
ghost use Rattle.cell_book.specs.Glimpses.{glimpse};
ghost use Rattle.clj_script.specs.Seen.{seen};
ghost use Rattle.lawful_works.specs.Basis.{IsGood};
ghost use Rattle.lawful_works.specs.Evaluated.{Came, IsBegun, IsOnly};
ghost use Rattle.lone_run.specs.Running.{basis_of, names_of};

use cell_book::{PlainCells, Work};
use clj_script::Program;
use eval_rules::LanguageRule;
use eval_stack::force;
use lawful_works::Stop;
use lone_run::Evaluator;
use seq_base::Limits;
use seq_values::Value;
use std::alloc::Global;

/// The evaluator of the whole language.
#[derive(Clone, Copy, Debug)]
pub struct Language;

impl Evaluator for Language {
    fn evaluate(
        alloc: Global,
        program: &Program,
        limits: Limits,
        cells: &mut PlainCells<'_>,
        work: Work,
    ) -> Result<Value, Stop> {
        evaluate_work(alloc, program, limits, cells, work)
    }
}

/// Evaluates a work by the rules of the language.
fn evaluate_work(
    alloc: Global,
    program: &Program,
    limits: Limits,
    cells: &mut PlainCells<'_>,
    work: Work,
) -> Result<Value, Stop>
    requires good { IsGood (names_of limits) (basis_of (seen program.now) limits) cells.old.book.now }
    requires begun { IsBegun (basis_of (seen program.now) limits) (glimpse cells.old.book.now) work }
    requires only { IsOnly cells.old.book.now work }
    ensures came { Came (names_of limits) (basis_of (seen program.now) limits) cells.old.book.now cells.new.book.now work result }
    ensures same { cells.new.book.ghost_name ≡ cells.old.book.ghost_name }
{
    force::<LanguageRule>(
        alloc,
        program,
        limits.processors,
        limits.steps as u64,
        cells,
        work,
    )
}
