//! How this rule runs.
use crate::state::State;
use seq_turns::Rule;

impl Rule for State {
    ghost use Rattle.print_rules.specs.Left.{prints};

    ghost running = { prints };
}
