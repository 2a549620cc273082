use seq_values::Turn;

/// A turn, and where the rule stands then.
#[derive(Drop)]
pub struct Next<S> {
    pub state: S,
    pub turn: Turn,
}
