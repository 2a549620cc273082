//! Sums, products, differences and divisions.
ghost use Rattle.std.specs.Prelude.{◌≡◌, ℤ, pos, ◌+ℤ◌, ◌-ℤ◌, ◌*ℤ◌, neg_ℤ, int_rem, ◌≢◌};
ghost use Rattle.core_fns.specs.Answering.{Tells, kept, given, operate, next_of};
ghost use Rattle.core_rows.specs.Arithmetic.{of_any, of_some, of_one, of_two, from_left, minus, give_int, quotient, remainder, modulus, int_mod};
ghost use Rattle.seq_values.specs.Plain.{plains};

use crate::arguments::{number_and_others, number_of, only_number, two_numbers};
use seq_base::Thrown;
use seq_values::{Value, integer};

/// An operation on two integers.
#[derive(Clone, Copy)]
pub(crate) enum Operation {
    Plus,
    Minus,
    Times,
}

impl Operation {
    /// The result, where it stays within 64 bits.
    #[tactic(auto, using(crate::proofs::Numbers::kept_is))]
    fn apply(self, a: i64, b: i64) -> Option<i64>
        ensures { result ≡ kept (operate self a b) }
    {
        match self {
            Operation::Plus => a.checked_add(b),
            Operation::Minus => a.checked_sub(b),
            Operation::Times => a.checked_mul(b),
        }
    }
}

/// The number as a value; without one the result left 64 bits.
fn gives(number: Option<i64>) -> Result<Value, Thrown>
    ensures { Tells result (given number) }
{
    match number {
        Some(number) => Ok(integer(number)),
        None => Err(Thrown::Overflow),
    }
}

/// The next result, where each one so far stayed within 64 bits.
fn next(operation: Operation, so_far: Option<i64>, number: i64) -> Option<i64>
    ensures { result ≡ next_of (operate operation) so_far number }
{
    match so_far {
        Some(total) => operation.apply(total, number),
        None => None,
    }
}

/// From the left over all numbers. That each is an integer comes before any overflow.
fn from_left(operation: Operation, first: i64, others: &[Value]) -> Result<Value, Thrown>
    ensures { Tells result (of_any (from_left (operate operation) first) (plains others.now)) }
{
    let mut so_far = Some(first);
    for other in others {
        let Some(number) = number_of(other) else {
            return Err(Thrown::BadType);
        };
        so_far = next(operation, so_far, number);
    }
    gives(so_far)
}

/// `+`
pub(crate) fn plus(args: &[Value]) -> Result<Value, Thrown>
    ensures { Tells result (of_any (from_left ◌+ℤ◌ (pos 0)) (plains args.now)) }
{
    from_left(Operation::Plus, 0, args)
}

/// `*`
pub(crate) fn times(args: &[Value]) -> Result<Value, Thrown>
    ensures { Tells result (of_any (from_left ◌*ℤ◌ (pos 1)) (plains args.now)) }
{
    from_left(Operation::Times, 1, args)
}

/// `-`
pub(crate) fn minus(args: &[Value]) -> Result<Value, Thrown>
    ensures { Tells result (of_some minus (plains args.now)) }
{
    let (first, others) = number_and_others(args)?;
    if others.is_empty() {
        return gives(first.checked_neg());
    }
    from_left(Operation::Minus, first, others)
}

/// `inc`
pub(crate) fn inc(args: &[Value]) -> Result<Value, Thrown>
    ensures { Tells result (of_one (λ n. give_int (n +ℤ pos 1)) (plains args.now)) }
{
    let number = only_number(args)?;
    gives(Operation::Plus.apply(number, 1))
}

/// `dec`
pub(crate) fn dec(args: &[Value]) -> Result<Value, Thrown>
    ensures { Tells result (of_one (λ n. give_int (n -ℤ pos 1)) (plains args.now)) }
{
    let number = only_number(args)?;
    gives(Operation::Minus.apply(number, 1))
}

/// `quot`, which rounds to zero.
pub(crate) fn quot(args: &[Value]) -> Result<Value, Thrown>
    ensures { Tells result (of_two quotient (plains args.now)) }
{
    let (a, b) = two_numbers(args)?;
    if b == 0 {
        return Err(Thrown::Divide);
    }
    gives(a.checked_div(b))
}

/// `rem`, which has the sign of the first number.
pub(crate) fn rem(args: &[Value]) -> Result<Value, Thrown>
    ensures { Tells result (of_two remainder (plains args.now)) }
{
    let (a, b) = two_numbers(args)?;
    if b == 0 {
        return Err(Thrown::Divide);
    }
    Ok(integer(a.wrapping_rem(b)))
}

/// The remainder that has the sign of `b`.
fn modulus_of(a: i64, b: i64) -> i64
    requires { b ≢ pos 0 }
    ensures { result ≡ int_mod a b }
{
    let remainder = a.wrapping_rem(b);
    if remainder < 0 && 0 < b || 0 < remainder && b < 0 {
        remainder + b
    } else {
        remainder
    }
}

/// `mod`, which has the sign of the second number.
pub(crate) fn modulo(args: &[Value]) -> Result<Value, Thrown>
    ensures { Tells result (of_two modulus (plains args.now)) }
{
    let (a, b) = two_numbers(args)?;
    if b == 0 {
        return Err(Thrown::Divide);
    }
    Ok(integer(modulus_of(a, b)))
}
