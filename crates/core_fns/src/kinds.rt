//! The words that tell what a value is.
ghost use Rattle.std.specs.Prelude.{◌≡◌};
ghost use Rattle.core_fns.specs.Answering.{Tells, test_of};
ghost use Rattle.core_rows.specs.Table.{tells, is_true, is_false, is_number, is_keyword, is_text, is_vector, is_function, is_reduced};
ghost use Rattle.seq_plan.specs.Nodes.{is_truthy, is_nil};
ghost use Rattle.seq_values.specs.Plain.{plain, plains};

use crate::arguments::{number_of, only};
use seq_base::Thrown;
use seq_values::{Value, truth};

/// What is asked of a value.
#[derive(Clone, Copy)]
pub(crate) enum Test {
    Nil,
    Some,
    True,
    False,
    Not,
    Number,
    Keyword,
    Text,
    Vector,
    Function,
    Reduced,
}

impl Test {
    fn holds(self, value: &Value) -> bool
        ensures { result ≡ test_of self (plain value.now) }
    {
        match self {
            Test::Nil => is_nil(value),
            Test::Some => !is_nil(value),
            Test::True => is_true(value),
            Test::False => is_false(value),
            Test::Not => !is_truthy(value),
            Test::Number => number_of(value).is_some(),
            Test::Keyword => is_keyword(value),
            Test::Text => is_text(value),
            Test::Vector => is_vector(value),
            Test::Function => is_function(value),
            Test::Reduced => is_reduced(value),
        }
    }
}

/// `nil?`, `number?` and the like.
pub(crate) fn tell(test: Test, args: &[Value]) -> Result<Value, Thrown>
    ensures { Tells result (tells (test_of test) (plains args.now)) }
{
    let value = only(args)?;
    Ok(truth(test.holds(value)))
}

fn is_nil(value: &Value) -> bool
    ensures { result ≡ is_nil (plain value.now) }
{
    match value {
        Value::Nil => true,
        _ => false,
    }
}

fn is_true(value: &Value) -> bool
    ensures { result ≡ is_true (plain value.now) }
{
    match value {
        Value::Bool(truth) => *truth,
        _ => false,
    }
}

fn is_false(value: &Value) -> bool
    ensures { result ≡ is_false (plain value.now) }
{
    match value {
        Value::Bool(truth) => !*truth,
        _ => false,
    }
}

/// nil and false are taken as false, all else as true.
fn is_truthy(value: &Value) -> bool
    ensures { result ≡ is_truthy (plain value.now) }
{
    match value {
        Value::Nil => false,
        Value::Bool(truth) => *truth,
        _ => true,
    }
}

fn is_keyword(value: &Value) -> bool
    ensures { result ≡ is_keyword (plain value.now) }
{
    match value {
        Value::Keyword(_) => true,
        _ => false,
    }
}

fn is_text(value: &Value) -> bool
    ensures { result ≡ is_text (plain value.now) }
{
    match value {
        Value::Text(_) => true,
        _ => false,
    }
}

fn is_vector(value: &Value) -> bool
    ensures { result ≡ is_vector (plain value.now) }
{
    match value {
        Value::Vector { .. } => true,
        _ => false,
    }
}

/// Transducers and reducer values too.
fn is_function(value: &Value) -> bool
    ensures { result ≡ is_function (plain value.now) }
{
    match value {
        Value::Function(_) => true,
        _ => false,
    }
}

fn is_reduced(value: &Value) -> bool
    ensures { result ≡ is_reduced (plain value.now) }
{
    match value {
        Value::Reduced { .. } => true,
        _ => false,
    }
}
