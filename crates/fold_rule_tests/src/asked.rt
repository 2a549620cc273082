ghost use Rattle.std.specs.Prelude.{◌≡◌, IsTrue};
ghost use Rattle.fold_rules.specs.Left.{wait_of};
ghost use Rattle.seq_turns.specs.Turning.{awaited};
ghost use Rattle.seq_values.specs.WellFormedTerms.{is_well_formed_turn};

use fold_rules::RuleState;
use seq_values::Turn;

/// A rule that took a turn, and what it asked then.
#[derive(Drop)]
pub(crate) struct Asked {
    pub(crate) state: RuleState,
    pub(crate) turn: Turn,
    ghost waits: { wait_of state.state ≡ awaited turn },
    ghost well: { IsTrue (is_well_formed_turn turn) },
}
