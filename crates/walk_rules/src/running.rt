//! How these rules run.
use crate::state::State;
use seq_turns::Rule;

impl Rule for State {
    ghost use Rattle.walk_rules.specs.Left.{walking};

    ghost running = { walking };
}
