//! The arguments of a call, by their number.
ghost use Rattle.std.specs.Prelude.{◌≡◌, ◌≢◌, [], ◌∷◌, length, IfOk, MatchOption};
ghost use Rattle.seq_values.specs.Plain.{plain, plains};
ghost use Rattle.walk_rules.specs.Shapes.{AreArguments};

use seq_turns::{Proper, ProperList};
use seq_vector::NoMemory;

/// The arguments of a word that takes two or three.
#[derive(Drop)]
pub(crate) enum TwoOrThree {
    Two(Proper, Proper),
    Three(Proper, Proper, Proper),
    Other,
}

/// The only argument, and `None` exactly where there is another number of them.
#[tactic(auto, using(crate::proofs::ByNumber::one_of))]
pub(crate) fn only(args: ProperList) -> Result<Option<Proper>, NoMemory>
    ensures { IfOk result (λ x. MatchOption x (length args.items ≢ 1) (λ v. plains args.items ≡ plain v.value ∷ [])) }
{
    let value = args.only()?;
    Ok(value)
}

/// The only two arguments, and `None` exactly where there is another number of them.
#[tactic(auto, using(crate::proofs::ByNumber::two_of))]
pub(crate) fn pair(args: ProperList) -> Result<Option<(Proper, Proper)>, NoMemory>
    ensures { IfOk result (λ x. MatchOption x (length args.items ≢ 2) (λ p. plains args.items ≡ plain p.0.value ∷ plain p.1.value ∷ [])) }
{
    let values = args.pair()?;
    Ok(values)
}

/// The only three arguments.
#[tactic(auto, using(crate::proofs::ByNumber::three_of))]
fn three(args: ProperList) -> Result<TwoOrThree, NoMemory>
    requires { length args.items ≡ 3 }
    ensures { IfOk result (λ x. AreArguments x args.items) }
{
    let first = args.at(0)?;
    let second = args.at(1)?;
    let third = args.at(2)?;
    Ok(TwoOrThree::Three(first, second, third))
}

/// Two or three arguments, or another number of them.
pub(crate) fn two_or_three(args: ProperList) -> Result<TwoOrThree, NoMemory>
    ensures { IfOk result (λ x. AreArguments x args.items) }
{
    if args.len() == 3 {
        let all = three(args)?;
        return Ok(all);
    }
    match pair(args)? {
        Some((first, second)) => Ok(TwoOrThree::Two(first, second)),
        None => Ok(TwoOrThree::Other),
    }
}
