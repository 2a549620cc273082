//! What a run asks of whoever evaluates its works.
ghost use Rattle.std.specs.Prelude.{◌≡◌};
ghost use Rattle.cell_book.specs.Glimpses.{glimpse};
ghost use Rattle.clj_script.specs.Seen.{seen};
ghost use Rattle.lawful_works.specs.Basis.{IsGood};
ghost use Rattle.lawful_works.specs.Evaluated.{Came, IsBegun, IsOnly};
ghost use Rattle.lone_run.specs.Running.{basis_of, names_of};

use cell_book::{PlainCells, Work};
use clj_script::Program;
use lawful_works::Stop;
use seq_base::Limits;
use seq_values::Value;
use std::alloc::Global;

/// It evaluates one work at a time, on a book that nobody shares.
pub trait Evaluator {
    /// Evaluates a work that was just opened, with all that it asks for, until its claim and those that it opened have ended.
    fn evaluate(
        alloc: Global,
        program: &Program,
        limits: Limits,
        cells: &mut PlainCells<'_>,
        work: Work,
    ) -> Result<Value, Stop>
        requires good { IsGood (names_of limits) (basis_of (seen program.now) limits) cells.old.book.now }
        requires begun { IsBegun (basis_of (seen program.now) limits) (glimpse cells.old.book.now) work }
        requires only { IsOnly cells.old.book.now work }
        ensures came { Came (names_of limits) (basis_of (seen program.now) limits) cells.old.book.now cells.new.book.now work result }
        ensures same { cells.new.book.ghost_name ≡ cells.old.book.ghost_name };
}
