//! Arguments of calls and of terms.
ghost use Rattle.std.specs.Prelude.{◌≡◌, [], ◌∷◌, length, IfOk};

use crate::state::State;
use seq_turns::{Next, Proper, ProperList};
use seq_vector::NoMemory;

/// The only two arguments.
#[derive(Drop)]
pub(crate) struct Two {
    pub(crate) first: Proper,
    pub(crate) second: Proper,
}

/// The only three arguments.
#[derive(Drop)]
pub(crate) struct Three {
    pub(crate) first: Proper,
    pub(crate) second: Proper,
    pub(crate) third: Proper,
}

/// The only four arguments.
#[derive(Drop)]
pub(crate) struct Four {
    pub(crate) first: Proper,
    pub(crate) second: Proper,
    pub(crate) third: Proper,
    pub(crate) fourth: Proper,
}

#[tactic(auto, using(seq_turns::proofs::Listing::two_values))]
pub(crate) fn two_of(args: &ProperList) -> Result<Two, NoMemory>
    requires { length args.now.items ≡ 2 }
    ensures { IfOk result (λ x. args.now.items ≡ x.first.value ∷ x.second.value ∷ []) }
{
    let first = args.at(0)?;
    let second = args.at(1)?;
    Ok(Two { first, second })
}

#[tactic(auto, using(crate::proofs::ArgumentLists::three_values))]
pub(crate) fn three_of(args: &ProperList) -> Result<Three, NoMemory>
    requires { length args.now.items ≡ 3 }
    ensures { IfOk result (λ x. args.now.items ≡ x.first.value ∷ x.second.value ∷ x.third.value ∷ []) }
{
    let first = args.at(0)?;
    let second = args.at(1)?;
    let third = args.at(2)?;
    Ok(Three {
        first,
        second,
        third,
    })
}

#[tactic(auto, using(crate::proofs::ArgumentLists::four_values))]
pub(crate) fn four_of(args: &ProperList) -> Result<Four, NoMemory>
    requires { length args.now.items ≡ 4 }
    ensures { IfOk result (λ x. args.now.items ≡ x.first.value ∷ x.second.value ∷ x.third.value ∷ x.fourth.value ∷ []) }
{
    let first = args.at(0)?;
    let second = args.at(1)?;
    let third = args.at(2)?;
    let fourth = args.at(3)?;
    Ok(Four {
        first,
        second,
        third,
        fourth,
    })
}

/// The same, and the arguments are let go.
pub(crate) fn without(next: Next<State>, args: ProperList) -> Next<State>
    ensures { result ≡ next }
{
    next
}
