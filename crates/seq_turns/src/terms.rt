//! Terms of parts.
ghost use Rattle.std.specs.Prelude.{◌≡◌, [], ◌∷◌, map, IfOk, IsTrue};
ghost use Rattle.seq_values.specs.Plain.{plain, plains, plain_term};
ghost use Rattle.seq_values.specs.WellFormed.{sight_of};
ghost use Rattle.seq_values.specs.WellFormedTerms.{is_well_formed_term, takes};

use crate::proper::{Proper, ProperList};
use seq_values::{Op, Term};
use seq_vector::NoMemory;
use std::alloc::Global;

/// A term of these arguments.
#[tactic(auto, using(seq_values::proofs::WellFormedLemmas::term_well))]
pub fn term_of(op: Op, args: ProperList) -> Term
    requires { IsTrue (takes op (map sight_of args.items)) }
    ensures stands { plain_term result ≡ record { op = op; args = plains args.items } }
    ensures well { IsTrue (is_well_formed_term result) }
{
    Term {
        op,
        args: args.items,
    }
}

/// A term of one argument.
#[tactic(auto, using(crate::proofs::Listing::takes_same, crate::proofs::Listing::term_same))]
pub fn term_with_one(alloc: Global, op: Op, only: Proper) -> Result<Term, NoMemory>
    requires { IsTrue (takes op (sight_of only.value ∷ [])) }
    ensures stands { IfOk result (λ t. plain_term t ≡ record { op = op; args = plain only.value ∷ [] }) }
    ensures well { IfOk result (λ t. IsTrue (is_well_formed_term t)) }
{
    let args = ProperList::one(alloc, only)?;
    Ok(term_of(op, args))
}

/// A term of two arguments.
#[tactic(auto, using(crate::proofs::Listing::takes_same, crate::proofs::Listing::term_same))]
pub fn term_with_two(alloc: Global, op: Op, first: Proper, second: Proper) -> Result<Term, NoMemory>
    requires { IsTrue (takes op (sight_of first.value ∷ sight_of second.value ∷ [])) }
    ensures stands { IfOk result (λ t. plain_term t ≡ record { op = op; args = plain first.value ∷ plain second.value ∷ [] }) }
    ensures well { IfOk result (λ t. IsTrue (is_well_formed_term t)) }
{
    let args = ProperList::two(alloc, first, second)?;
    Ok(term_of(op, args))
}
