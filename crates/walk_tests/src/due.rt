ghost use Rattle.std.specs.Prelude.{◌≡◌};
ghost use Rattle.seq_turns.specs.Turning.{awaited};
ghost use Rattle.walk_rules.specs.Left.{wait_of};

use seq_values::Turn;
use walk_rules::RuleState;

/// A turn that a rule took, and where the rule waits for its answer.
#[derive(Drop)]
pub(crate) struct Due {
    pub(crate) state: RuleState,
    pub(crate) turn: Turn,
    ghost waits: { wait_of state.state ≡ awaited turn },
}
