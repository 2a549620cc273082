use crate::state::State;
use seq_turns::Rule;

impl Rule for State {
    ghost use Rattle.fold_rules.specs.Left.{running};

    ghost running = { running };
}
