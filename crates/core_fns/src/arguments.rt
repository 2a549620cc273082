//! What the words ask of their arguments.
ghost use Rattle.std.specs.Prelude.{◌≡◌, ℕ, ℤ, [], ◌∷◌, List, IfOk, IfErr};
ghost use Rattle.core_fns.specs.Answering.{number};
ghost use Rattle.core_rows.specs.Arithmetic.{of_one, of_two, of_some, of_any};
ghost use Rattle.seq_plan.specs.Arguments.{of_value};
ghost use Rattle.seq_plan.specs.Plan.{Plan, throw};
ghost use Rattle.seq_values.specs.Model as M;
ghost use Rattle.seq_values.specs.Plain.{plain, plains};

use seq_base::Thrown;
use seq_values::{Node, Value};

/// The integer that a value is, and `None` for a value that is none.
#[tactic(auto)]
pub(crate) fn number_of(value: &Value) -> Option<i64>
    ensures { result ≡ number (plain value.now) }
{
    match value {
        Value::Nil => None,
        Value::Bool(_) => None,
        Value::Int(number) => Some(*number),
        Value::Keyword(_) => None,
        Value::Text(_) => None,
        Value::Vector { .. } => None,
        Value::Function(_) => None,
        Value::Node(node) => match node {
            Node::Empty => None,
            Node::Cons { .. } => None,
            Node::Chunk { .. } => None,
            Node::Range { .. } => None,
            Node::VecSeq { .. } => None,
        },
        Value::Reduced { .. } => None,
        Value::Cell(_) => None,
    }
}

/// The only argument, which may be any value.
pub(crate) fn only(args: &[Value]) -> Result<&Value, Thrown>
    ensures same { IfOk result (λ x. args.now ≡ x.now ∷ []) }
    ensures one { IfOk result (λ x. plains args.now ≡ plain x.now ∷ []) }
    ensures refused { IfErr result (λ why. (k : M.Value ℕ → Plan ℕ) → of_value k (plains args.now) ≡ throw why) }
{
    match args {
        [value] => Ok(value),
        _ => Err(Thrown::Arity),
    }
}

/// The only argument, an integer.
pub(crate) fn only_number(args: &[Value]) -> Result<i64, Thrown>
    ensures one { IfOk result (λ n. plains args.now ≡ M.int n ∷ []) }
    ensures refused { IfErr result (λ why. (k : ℤ → Plan ℕ) → of_one k (plains args.now) ≡ throw why) }
{
    let [value] = args else {
        return Err(Thrown::Arity);
    };
    number_of(value).ok_or(Thrown::BadType)
}

/// The only two arguments, integers.
pub(crate) fn two_numbers(args: &[Value]) -> Result<(i64, i64), Thrown>
    ensures two { IfOk result (λ p. plains args.now ≡ M.int p.0 ∷ M.int p.1 ∷ []) }
    ensures refused { IfErr result (λ why. (k : ℤ → ℤ → Plan ℕ) → of_two k (plains args.now) ≡ throw why) }
{
    let [first, second] = args else {
        return Err(Thrown::Arity);
    };
    match (number_of(first), number_of(second)) {
        (Some(first), Some(second)) => Ok((first, second)),
        _ => Err(Thrown::BadType),
    }
}

/// The first argument, an integer, and the others, of which nothing is known.
pub(crate) fn number_and_others(args: &[Value]) -> Result<(i64, &[Value]), Thrown>
    ensures some { IfOk result (λ p. plains args.now ≡ M.int p.0 ∷ plains p.1.now) }
    ensures refused { IfErr result (λ why. (k : ℤ → List ℤ → Plan ℕ) → of_some k (plains args.now) ≡ throw why) }
{
    let Some((first, others)) = args.split_first() else {
        return Err(Thrown::Arity);
    };
    match number_of(first) {
        Some(first) => Ok((first, others)),
        None => Err(Thrown::BadType),
    }
}
