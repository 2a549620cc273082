//! What the rules look at among their arguments.
ghost use Rattle.std.specs.Prelude.{◌≡◌, ◌≢◌, [], ◌∷◌, length, map, IfOk, IfSome, MatchOption, None};
ghost use Rattle.lazy_rules.specs.Arguments.{counted};
ghost use Rattle.seq_turns.specs.Arguments.{integer_of};
ghost use Rattle.seq_plan.specs.Nodes.{is_nil};
ghost use Rattle.seq_values.specs.Model as M;
ghost use Rattle.seq_values.specs.Plain.{plain, plains};
ghost use Rattle.seq_values.specs.Sight.{an_int};
ghost use Rattle.seq_values.specs.WellFormed.{sight_of};

use crate::ways::let_go;
use seq_turns::{Proper, ProperList, number_of};
use seq_values::Value;
use seq_vector::NoMemory;

pub(crate) fn is_nil(value: &Proper) -> bool
    ensures { result ≡ is_nil (plain value.now.value) }
{
    match &value.value {
        Value::Nil => true,
        _ => false,
    }
}

/// The only argument, and `None` exactly where there isn't one alone.
pub(crate) fn only(args: ProperList) -> Result<Option<Proper>, NoMemory>
    ensures { IfOk result (λ x. MatchOption x (length args.items ≢ 1) (λ v. args.items ≡ v.value ∷ [])) }
{
    let value = args.only()?;
    let_go(args);
    Ok(value)
}

/// The only two arguments, and `None` exactly where there aren't two.
pub(crate) fn pair_of(args: ProperList) -> Result<Option<(Proper, Proper)>, NoMemory>
    ensures { IfOk result (λ x. MatchOption x (length args.items ≢ 2) (λ p. args.items ≡ p.0.value ∷ p.1.value ∷ [])) }
{
    let pair = args.pair()?;
    let_go(args);
    Ok(pair)
}

/// A count and a collection.
#[derive(Drop)]
pub(crate) struct Counted {
    pub(crate) count: i64,
    pub(crate) source: Proper,
}

/// A number and a second argument, and `None` exactly where the arguments are something else.
pub(crate) fn counted_of(args: ProperList) -> Result<Option<Counted>, NoMemory>
    ensures same { IfOk result (λ x. MatchOption x (counted (plains args.items) ≡ None) (λ p. plains args.items ≡ M.int p.count ∷ plain p.source.value ∷ [])) }
    ensures sights { IfOk result (λ x. IfSome x (λ p. map sight_of args.items ≡ an_int p.count ∷ sight_of p.source.value ∷ [])) }
{
    let pair = pair_of(args)?;
    match pair {
        None => Ok(None),
        Some(pair) => Ok(count_in(pair)),
    }
}

fn count_in(pair: (Proper, Proper)) -> Option<Counted>
    ensures same { MatchOption result (integer_of (plain pair.0.value) ≡ None) (λ p. (plain pair.0.value ≡ M.int p.count) × (p.source.value ≡ pair.1.value)) }
    ensures sight { IfSome result (λ p. sight_of pair.0.value ≡ an_int p.count) }
{
    let (first, second) = pair;
    match number_of(&first.value) {
        None => None,
        Some(count) => Some(Counted {
            count,
            source: second,
        }),
    }
}
