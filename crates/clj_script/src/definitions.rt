//! The names that a script defines.
ghost use Rattle.std.specs.Prelude.{◌≡◌, [], ◌∷◌, ◌++◌, length, not, true, None, IfOk};
ghost use Rattle.clj_script.specs.Words.{spelled};
ghost use Rattle.clj_script.specs.Scopes as scope;
ghost use Rattle.clj_script.specs.Names.{defined, Stands};
ghost use Rattle.clj_script.specs.Nodes.{parts_of, is_writable};

use crate::expr::Expr;
use crate::locals::{Locals, number_of};
use crate::words::{built_in, reserved_word};
use indexmap::IndexMap;
use std::alloc::{AllocError, Global};

/// What a defined name stands for.
#[derive(Clone, Copy, Debug, PartialEq, Eq)]
pub(crate) enum Meaning {
    /// The value of the `def` form with this number, from 1.
    Form(u32),
    /// The function with this number, from 0.
    Function(u32),
}

/// The defined names in the order of their definitions.
pub(crate) type Definitions = IndexMap<Vec<u8>, Meaning>;

/// What a symbol stands for where a value is wanted, or the number of its refusal: 10 for a reserved word, 7 for a name that
/// isn't known. The innermost local comes first, then a definition, then a built-in word.
#[tactic(auto, unfolding(crate::specs::Scopes::named, crate::specs::Nodes::tree_over))]
pub(crate) fn named(name: &[u8], locals: &Locals, definitions: &Definitions) -> Result<Expr, u8>
    ensures stands { Stands result (scope.named (defined definitions.now.entries) locals.now name.now) }
    ensures alone { IfOk result (λ expr. parts_of expr ≡ []) }
    ensures written { IfOk result (λ expr. is_writable expr ≡ true) }
{
    if reserved_word(name).is_some() {
        return Err(10);
    }
    if let Some(number) = locals.find(name) {
        return Ok(Expr::Local(number));
    }
    match definition(name, definitions) {
        Some(Meaning::Form(form)) => return Ok(Expr::Defined { form }),
        Some(Meaning::Function(function)) => return Ok(Expr::Function(function)),
        None => {}
    }
    match built_in(name) {
        Some(word) => Ok(Expr::Word(word)),
        None => Err(7),
    }
}

/// What a defined name stands for.
#[tactic(auto, using(crate::proofs::NameLemmas::defined_lookup))]
fn definition(name: &[u8], definitions: &Definitions) -> Option<Meaning>
    ensures { result ≡ spelled (defined definitions.now.entries) name.now }
{
    definitions.get(name).copied()
}

/// Whether a name may not be bound: it is reserved or has a `/`.
#[tactic(auto, unfolding(crate::specs::Scopes::is_unfit))]
pub(crate) fn is_unfit(name: &[u8]) -> bool
    ensures { result ≡ scope.is_unfit name.now }
{
    if reserved_word(name).is_some() {
        return true;
    }
    name.contains(&b'/')
}

/// Whether a name is defined already, or built in.
#[tactic(auto, unfolding(crate::specs::Scopes::is_taken))]
pub(crate) fn is_taken(name: &[u8], definitions: &Definitions) -> bool
    ensures { result ≡ scope.is_taken (defined definitions.now.entries) name.now }
{
    if definition(name, definitions).is_some() {
        return true;
    }
    built_in(name).is_some()
}

/// Defines a name, and gives its number.
pub(crate) fn define(
    alloc: Global,
    definitions: &mut Definitions,
    name: &[u8],
    meaning: Meaning,
) -> Result<u32, AllocError>
    requires { spelled (defined definitions.old.entries) name.now ≡ None }
    ensures { IfOk result (λ n. (n ≡ length definitions.old.entries) × (defined definitions.new.entries ≡ defined definitions.old.entries ++ (name.now, meaning) ∷ [])) }
{
    let number = number_of(definitions.len())?;
    definitions.insert(Vec::from_slice(alloc, name)?, meaning)?;
    Ok(number)
}
