//! What rules look at among their arguments.
ghost use Rattle.std.specs.Prelude.{◌≡◌, ◌≢◌, ◌<◌, ◌+◌, [], ◌∷◌, length, drop, IfOk, IfSome, MatchOption};
ghost use Rattle.seq_plan.specs.Nodes.{is_truthy};
ghost use Rattle.seq_turns.specs.Arguments.{integer_of, part_in};
ghost use Rattle.seq_values.specs.Plain.{plain};
ghost use Rattle.seq_values.specs.Sight.{an_int};
ghost use Rattle.seq_values.specs.WellFormed.{sight_of};

use crate::proper::{Proper, ProperList};
use seq_values::{CellId, Node, Value};
use seq_vector::NoMemory;

/// The integer that a value is, and `None` for a value that is none.
pub fn number_of(value: &Value) -> Option<i64>
    ensures same { result ≡ integer_of (plain value.now) }
    ensures sight { IfSome result (λ n. sight_of value.now ≡ an_int n) }
{
    match value {
        Value::Nil => None,
        Value::Bool(_) => None,
        Value::Int(number) => Some(*number),
        Value::Keyword(_) => None,
        Value::Text(_) => None,
        Value::Vector { .. } => None,
        Value::Function(_) => None,
        Value::Node(node) => match node {
            Node::Empty => None,
            Node::Cons { .. } => None,
            Node::Chunk { .. } => None,
            Node::Range { .. } => None,
            Node::VecSeq { .. } => None,
        },
        Value::Reduced { .. } => None,
        Value::Cell(_) => None,
    }
}

/// The part that a value is, and `None` for a value that is none.
pub fn part_of(value: &Value) -> Option<CellId>
    ensures { result ≡ part_in (plain value.now) }
{
    match value {
        Value::Nil => None,
        Value::Bool(_) => None,
        Value::Int(_) => None,
        Value::Keyword(_) => None,
        Value::Text(_) => None,
        Value::Vector { .. } => None,
        Value::Function(_) => None,
        Value::Node(node) => match node {
            Node::Empty => None,
            Node::Cons { .. } => None,
            Node::Chunk { .. } => None,
            Node::Range { .. } => None,
            Node::VecSeq { .. } => None,
        },
        Value::Reduced { .. } => None,
        Value::Cell(id) => Some(*id),
    }
}

/// Whether a value counts as true: all but nil and false do.
pub fn is_truthy(value: &Value) -> bool
    ensures { result ≡ is_truthy (plain value.now) }
{
    match value {
        Value::Nil => false,
        Value::Bool(truth) => *truth,
        _ => true,
    }
}

impl ProperList {
    #[tactic(auto, using(crate::proofs::Listing::not_at_end))]
    /// The value at a place that is there, with one more owner.
    pub fn at(&self, at: usize) -> Result<Proper, NoMemory>
        requires { at < length self.now.items }
        ensures { IfOk result (λ v. drop at self.now.items ≡ v.value ∷ drop (at + 1) self.now.items) }
    {
        match self.get(at)? {
            Some(value) => Ok(value),
            None => unreachable!(),
        }
    }

    #[tactic(auto, using(crate::proofs::Listing::one_value))]
    /// The only value, and `None` exactly where there isn't one alone.
    pub fn only(&self) -> Result<Option<Proper>, NoMemory>
        ensures { IfOk result (λ x. MatchOption x (length self.now.items ≢ 1) (λ v. self.now.items ≡ v.value ∷ [])) }
    {
        if self.len() != 1 {
            return Ok(None);
        }
        let value = self.at(0)?;
        Ok(Some(value))
    }

    #[tactic(auto, using(crate::proofs::Listing::two_values))]
    /// The only two values, and `None` exactly where there aren't two.
    pub fn pair(&self) -> Result<Option<(Proper, Proper)>, NoMemory>
        ensures { IfOk result (λ x. MatchOption x (length self.now.items ≢ 2) (λ p. self.now.items ≡ p.0.value ∷ p.1.value ∷ [])) }
    {
        if self.len() != 2 {
            return Ok(None);
        }
        let first = self.at(0)?;
        let second = self.at(1)?;
        Ok(Some((first, second)))
    }
}
