//! A call of a word, by the word.
ghost use Rattle.std.specs.Prelude.{◌≡◌, IsTrue};
ghost use Rattle.core_fns.specs.Answering.{Answers, told};
ghost use Rattle.core_rows.specs.Table.{core_call};
ghost use Rattle.seq_values.specs.Plain.{plains};
ghost use Rattle.seq_values.specs.WellFormed.{are_well_formed};

use crate::arithmetic::{dec, inc, minus, modulo, plus, quot, rem, times};
use crate::comparison::{
    Choice, Comparison, choose, compare, is_even, is_negative, is_odd, is_positive, is_zero,
};
use crate::kinds::{Test, tell};
use crate::making::{
    comp, complement, completing, constantly, identity, list_of, monoid, partial, reduced_of,
    unreduced_of, vector_of,
};
use seq_base::Thrown;
use seq_values::{Builtin, CallStop, Value};
use std::alloc::Global;

/// What a call of a word that forces nothing gives, or why it gives no value. The number of arguments is looked at first, then their types, then the rest; another word throws `arity`. Each argument has to be well formed, and the value is.
#[tactic(auto, using(crate::proofs::Made::tells_told))]
pub fn call_builtin(alloc: Global, word: Builtin, args: &[Value]) -> Result<Value, CallStop>
    requires { IsTrue (are_well_formed args.now) }
    ensures { Answers result (core_call word (plains args.now)) }
{
    match word {
        Builtin::Plus => told(plus(args)),
        Builtin::Times => told(times(args)),
        Builtin::Minus => told(minus(args)),
        Builtin::Inc => told(inc(args)),
        Builtin::Dec => told(dec(args)),
        Builtin::Quot => told(quot(args)),
        Builtin::Rem => told(rem(args)),
        Builtin::Mod => told(modulo(args)),
        Builtin::Min => told(choose(Choice::Least, args)),
        Builtin::Max => told(choose(Choice::Greatest, args)),
        Builtin::Less => told(compare(Comparison::Less, args)),
        Builtin::LessOrEqual => told(compare(Comparison::LessOrEqual, args)),
        Builtin::Greater => told(compare(Comparison::Greater, args)),
        Builtin::GreaterOrEqual => told(compare(Comparison::GreaterOrEqual, args)),
        Builtin::IsZero => told(is_zero(args)),
        Builtin::IsPositive => told(is_positive(args)),
        Builtin::IsNegative => told(is_negative(args)),
        Builtin::IsEven => told(is_even(args)),
        Builtin::IsOdd => told(is_odd(args)),
        Builtin::IsNil => told(tell(Test::Nil, args)),
        Builtin::IsSome => told(tell(Test::Some, args)),
        Builtin::IsTrue => told(tell(Test::True, args)),
        Builtin::IsFalse => told(tell(Test::False, args)),
        Builtin::Not => told(tell(Test::Not, args)),
        Builtin::IsNumber => told(tell(Test::Number, args)),
        Builtin::IsKeyword => told(tell(Test::Keyword, args)),
        Builtin::IsString => told(tell(Test::Text, args)),
        Builtin::IsVector => told(tell(Test::Vector, args)),
        Builtin::IsFunction => told(tell(Test::Function, args)),
        Builtin::IsReduced => told(tell(Test::Reduced, args)),
        Builtin::Identity => identity(args),
        Builtin::Constantly => constantly(alloc, args),
        Builtin::Complement => complement(alloc, args),
        Builtin::Partial => partial(alloc, args),
        Builtin::Comp => comp(alloc, args),
        Builtin::Completing => completing(alloc, args),
        Builtin::Monoid => monoid(alloc, args),
        Builtin::Vector => vector_of(alloc, args),
        Builtin::List => list_of(alloc, args),
        Builtin::Reduced => reduced_of(alloc, args),
        Builtin::Unreduced => unreduced_of(args),
        _ => Err(CallStop::Thrown(Thrown::Arity)),
    }
}

/// The same answer, where memory was not asked for.
fn told(answer: Result<Value, Thrown>) -> Result<Value, CallStop>
    ensures { result ≡ told answer }
{
    match answer {
        Ok(value) => Ok(value),
        Err(why) => Err(CallStop::Thrown(why)),
    }
}
