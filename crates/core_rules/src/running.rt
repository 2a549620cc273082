//! How these rules run.
use crate::state::State;
use seq_turns::Rule;

impl Rule for State {
    ghost use Rattle.core_rules.specs.Left.{core_runs};

    ghost running = { core_runs };
}
