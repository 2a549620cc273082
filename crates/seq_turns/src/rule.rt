ghost use Rattle.seq_turns.specs.Turning.{Running};

/// A type of states of rules that run by turns.
pub trait Rule: Drop {
    /// What is left of a rule's plan by where it stands and what it is told, what it waits for, the loops that are its own, and their rounds.
    ghost running: { Running Self };
}
