//! How the work of a call and of a term begins.
ghost use Rattle.std.specs.Prelude.{◌≡◌, IsTrue};
ghost use Rattle.eval_rules.specs.Left.{left, wait_of};
ghost use Rattle.seq_plan.specs.Plan.{begun};
ghost use Rattle.seq_table.specs.Table.{on_call, on_term, chunk_size};
ghost use Rattle.seq_turns.specs.Turning.{Fits};
ghost use Rattle.seq_values.specs.Plain.{plains};
ghost use Rattle.seq_values.specs.WellFormed.{is_well_formed_function};

use crate::choosing::word_called;
use crate::state::State;
use eval_frames::ProperTerm;
use seq_turns::ProperList;
use seq_values::{Answer, FnValue, Op, Target};

/// How many elements a chunk has at most, and how many outputs a pull gives at once.
const CHUNK: u32 = 32;

/// The rule of a call of a function that is none of the program's.
pub(crate) fn called(processors: u32, function: FnValue, args: ProperList) -> State
    requires { IsTrue (is_well_formed_function function) }
    ensures left { left result begun ≡ on_call processors function.target (plains function.bound) (plains args.items) }
    ensures waits { Fits (wait_of result) Answer.Begin }
{
    match function.target {
        Target::Builtin(word) => word_called(processors, word, args),
        _ => State::Core(core_rules::begin_call(function, args.items)),
    }
}

/// The rule of a term.
pub(crate) fn worked(term: ProperTerm) -> State
    ensures left { left result begun ≡ on_term chunk_size term.term.op (plains term.term.args) }
    ensures waits { Fits (wait_of result) Answer.Begin }
{
    match term.term.op {
        Op::Pull => State::Stage(pull_rules::begin(term.term, CHUNK)),
        Op::Fold => State::Fold(fold_rules::begin(term.term)),
        Op::Rets => State::Ahead(ahead_rules::begin(term.term, CHUNK)),
        Op::Step => State::Ahead(ahead_rules::begin(term.term, CHUNK)),
        Op::Derefs => State::Ahead(ahead_rules::begin(term.term, CHUNK)),
        Op::Call => State::Ahead(ahead_rules::begin(term.term, CHUNK)),
        Op::Ahead => State::Ahead(ahead_rules::begin(term.term, CHUNK)),
        Op::AheadOf => State::Ahead(ahead_rules::begin(term.term, CHUNK)),
        Op::Near => State::Ahead(ahead_rules::begin(term.term, CHUNK)),
        _ => State::Lazy(lazy_rules::begin(term.term, CHUNK)),
    }
}
