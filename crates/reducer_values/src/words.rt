//! The words that make reducer values.
ghost use Rattle.std.specs.Prelude.{◌≡◌, ◌∷◌, [], true, List, IfSome, IsTrue};
ghost use Rattle.fold_rows.specs.Table.{fold_call};
ghost use Rattle.reducer_values.specs.Words.{is_reducer_word, called_with, first_integer};
ghost use Rattle.seq_base.specs.declared.thrown.Thrown.TheVariants as E;
ghost use Rattle.seq_plan.specs.Plan.{give};
ghost use Rattle.seq_turns.specs.Making.{made};
ghost use Rattle.seq_values.specs.Plain.{plains};
ghost use Rattle.seq_values.specs.Sight.{Sight, an_int};
ghost use Rattle.seq_values.specs.WellFormed.{binds_folder, sight_of};
ghost use Rattle.seq_values.specs.declared.words.Builtin.TheVariants as B;
ghost use Rattle.seq_values.specs.declared.value.Value.{Value as ValueOf};

use seq_base::Thrown;
use seq_turns::{Made, ProperList, function_made, number_of};
use seq_values::{Builtin, FolderKind, Target};

/// Whether a word makes a reducer value.
pub fn is_reducer_word(word: Builtin) -> bool
    ensures { result ≡ is_reducer_word word }
{
    match word {
        Builtin::ReducerMap => true,
        Builtin::ReducerFilter => true,
        Builtin::ReducerRemove => true,
        Builtin::ReducerMapcat => true,
        Builtin::ReducerTake => true,
        Builtin::ReducerTakeWhile => true,
        _ => false,
    }
}

/// What a call of such a word makes, or why it makes nothing: `Arity` where there aren't two arguments, `BadType` where `r/take` is given no integer, `Depth` where the value would be too deep. It takes no memory.
/// https://clojure.org/reference/reducers
pub fn reducer_call(word: Builtin, args: ProperList) -> Made
    requires { IsTrue (is_reducer_word word) }
    ensures { fold_call word (plains args.items) ≡ made result give }
{
    match word {
        Builtin::ReducerMap => reducer_of(FolderKind::Map, args),
        Builtin::ReducerFilter => reducer_of(FolderKind::Filter, args),
        Builtin::ReducerRemove => reducer_of(FolderKind::Remove, args),
        Builtin::ReducerMapcat => reducer_of(FolderKind::Mapcat, args),
        Builtin::ReducerTake => take_of(args),
        Builtin::ReducerTakeWhile => reducer_of(FolderKind::TakeWhile, args),
        _ => unreachable!(),
    }
}

/// A number of arguments that the word doesn't take.
fn wrong_number(args: ProperList) -> Made
    ensures { result ≡ Made.Thrown E.Arity }
{
    Made::Thrown(Thrown::Arity)
}

/// An argument that isn't of the kind that the word takes.
fn wrong_kind(args: ProperList) -> Made
    ensures { result ≡ Made.Thrown E.BadType }
{
    Made::Thrown(Thrown::BadType)
}

/// A reducer value of a function and a collection.
#[tactic(auto, using(crate::proofs::Reducing::folder_made, crate::proofs::Reducing::folder_arity, crate::proofs::Reducing::folder_binds))]
fn reducer_of(kind: FolderKind, args: ProperList) -> Made
    requires { (a b : Sight) → binds_folder kind (a ∷ b ∷ []) ≡ true }
    ensures { called_with kind (plains args.items) ≡ made result give }
{
    if args.len() != 2 {
        return wrong_number(args);
    }
    function_made(Target::Folder(kind), args)
}

/// The first argument, where it is an integer.
fn first_number(args: &ProperList) -> Option<i64>
    ensures same { result ≡ first_integer (plains args.now.items) }
    ensures sight { (x : ValueOf) (xs : List ValueOf) → args.now.items ≡ x ∷ xs → IfSome result (λ n. sight_of x ≡ an_int n) }
{
    match args.items.get(0) {
        None => None,
        Some(value) => number_of(value),
    }
}

/// `r/take`
#[tactic(auto, using(crate::proofs::Reducing::take_arity, crate::proofs::Reducing::take_wrong))]
fn take_of(args: ProperList) -> Made
    ensures { fold_call B.ReducerTake (plains args.items) ≡ made result give }
{
    if args.len() != 2 {
        return wrong_number(args);
    }
    let found = first_number(&args);
    match found {
        None => wrong_kind(args),
        Some(_number) => function_made(Target::Folder(FolderKind::Take), args),
    }
}
