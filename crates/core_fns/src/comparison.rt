//! Comparisons, and the least and the greatest of some numbers.
ghost use Rattle.std.specs.Prelude.{◌≡◌, pos, int_lt, not};
ghost use Rattle.std.specs.Ordering.{int_eq};
ghost use Rattle.seq_values.specs.Model as M;
ghost use Rattle.seq_plan.specs.Plan.{give};
ghost use Rattle.core_fns.specs.Answering.{Tells, is_so, chosen};
ghost use Rattle.core_rows.specs.Arithmetic.{of_some, of_one, left_of, each_pair, give_bool, is_even};
ghost use Rattle.seq_values.specs.Plain.{plains};

use crate::arguments::{number_and_others, number_of, only_number};
use seq_base::Thrown;
use seq_values::{Value, integer, truth};

/// What is asked of each neighbouring pair.
#[derive(Clone, Copy)]
pub(crate) enum Comparison {
    Less,
    LessOrEqual,
    Greater,
    GreaterOrEqual,
}

impl Comparison {
    fn holds(self, a: i64, b: i64) -> bool
        ensures { result ≡ is_so self a b }
    {
        match self {
            Comparison::Less => a < b,
            Comparison::LessOrEqual => a <= b,
            Comparison::Greater => a > b,
            Comparison::GreaterOrEqual => a >= b,
        }
    }
}

/// `<` and the like. All arguments are looked at, since each has to be an integer.
pub(crate) fn compare(comparison: Comparison, args: &[Value]) -> Result<Value, Thrown>
    ensures { Tells result (of_some (λ n ns. give_bool (each_pair (is_so comparison) n ns)) (plains args.now)) }
{
    let (mut previous, others) = number_and_others(args)?;
    let mut so_far = true;
    for other in others {
        let Some(number) = number_of(other) else {
            return Err(Thrown::BadType);
        };
        so_far = so_far && comparison.holds(previous, number);
        previous = number;
    }
    Ok(truth(so_far))
}

/// Which number is taken.
#[derive(Clone, Copy)]
pub(crate) enum Choice {
    Least,
    Greatest,
}

impl Choice {
    fn of(self, a: i64, b: i64) -> i64
        ensures { result ≡ chosen self a b }
    {
        match self {
            Choice::Least => a.min(b),
            Choice::Greatest => a.max(b),
        }
    }
}

/// `min` and `max`.
pub(crate) fn choose(choice: Choice, args: &[Value]) -> Result<Value, Thrown>
    ensures { Tells result (of_some (λ n ns. give (M.int (left_of (chosen choice) n ns))) (plains args.now)) }
{
    let (mut best, others) = number_and_others(args)?;
    for other in others {
        let Some(number) = number_of(other) else {
            return Err(Thrown::BadType);
        };
        best = choice.of(best, number);
    }
    Ok(integer(best))
}

/// `zero?`
pub(crate) fn is_zero(args: &[Value]) -> Result<Value, Thrown>
    ensures { Tells result (of_one (λ n. give_bool (int_eq n (pos 0))) (plains args.now)) }
{
    let number = only_number(args)?;
    Ok(truth(number == 0))
}

/// `pos?`
pub(crate) fn is_positive(args: &[Value]) -> Result<Value, Thrown>
    ensures { Tells result (of_one (λ n. give_bool (int_lt (pos 0) n)) (plains args.now)) }
{
    let number = only_number(args)?;
    Ok(truth(0 < number))
}

/// `neg?`
pub(crate) fn is_negative(args: &[Value]) -> Result<Value, Thrown>
    ensures { Tells result (of_one (λ n. give_bool (int_lt n (pos 0))) (plains args.now)) }
{
    let number = only_number(args)?;
    Ok(truth(number < 0))
}

/// Whether a number is a multiple of 2.
fn divides_by_two(number: i64) -> bool
    ensures { result ≡ is_even number }
{
    number % 2 == 0
}

/// `even?`
pub(crate) fn is_even(args: &[Value]) -> Result<Value, Thrown>
    ensures { Tells result (of_one (λ n. give_bool (is_even n)) (plains args.now)) }
{
    let number = only_number(args)?;
    Ok(truth(divides_by_two(number)))
}

/// `odd?`
pub(crate) fn is_odd(args: &[Value]) -> Result<Value, Thrown>
    ensures { Tells result (of_one (λ n. give_bool (not (is_even n))) (plains args.now)) }
{
    let number = only_number(args)?;
    Ok(truth(!divides_by_two(number)))
}
