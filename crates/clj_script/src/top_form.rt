//! What a form at the top asks for, once its threading is written out.
ghost use Rattle.std.specs.Prelude.{◌≡◌, ◌<◌, ℕ, false, List, length, map, IfOk};
ghost use Rattle.clj_script.specs.declared.source.Entry.{Entry as Kept};
ghost use Rattle.clj_script.specs.declared.words.Special.TheVariants.{Def as DefWord, Defn as DefnWord, Prn as PrnWord, Ledger as LedgerWord};
ghost use Rattle.clj_script.specs.Arena.{AllBelow};
ghost use Rattle.clj_script.specs.Entries.{IsLower, form_at};
ghost use Rattle.clj_script.specs.Reads.{as_top, numbers_in_top, is_threading};
ghost use Rattle.clj_script.specs.Scripts.{top_reading, special_at_top};

use crate::reading::{Clause, clauses, heading};
use crate::source::{Entry, list, symbol};
use crate::words::{Reserved, Special};
use std::alloc::{AllocError, Global};

/// What a form at the top asks for. Forms are named by their numbers.
#[derive(Drop)]
pub(crate) enum TopForm {
    /// It is no list.
    Stray,
    /// It is a list that isn't headed by one of the four words of the top.
    StrayList,
    /// It is headed by one of them, with wrong arguments.
    Wrong,
    Def { name: usize, value: usize },
    Defn { name: usize, clauses: Vec<Clause> },
    Prn(usize),
    Ledger,
}

/// What a form at the top asks for, where it is no threading.
pub(crate) fn top_form(alloc: Global, sources: &[Entry], form: usize) -> Result<TopForm, AllocError>
    requires lower { IsLower sources.now }
    requires below { form < length sources.now }
    requires plain { is_threading (top_reading (form_at sources.now form)) ≡ false }
    ensures read { IfOk result (λ r. as_top sources.now r ≡ top_reading (form_at sources.now form)) }
    ensures below { IfOk result (λ r. AllBelow (length sources.now) (numbers_in_top r)) }
{
    let Some(items) = list(sources, form) else {
        return Ok(TopForm::Stray);
    };
    let [head, args @ ..] = items else {
        return Ok(TopForm::StrayList);
    };
    match heading(sources, *head) {
        None => Ok(TopForm::StrayList),
        Some(Reserved::Outside) => Ok(TopForm::StrayList),
        Some(Reserved::Special(special)) => special_form(alloc, sources, special, args),
    }
}

/// What a list headed by the word of a special form asks for at the top.
fn special_form(
    alloc: Global,
    sources: &[Entry],
    special: Special,
    args: &[usize],
) -> Result<TopForm, AllocError>
    requires lower { IsLower sources.now }
    requires below { AllBelow (length sources.now) args.now }
    requires plain { is_threading (special_at_top special (map (form_at sources.now) args.now)) ≡ false }
    ensures read { IfOk result (λ r. as_top sources.now r ≡ special_at_top special (map (form_at sources.now) args.now)) }
    ensures below { IfOk result (λ r. AllBelow (length sources.now) (numbers_in_top r)) }
{
    match special {
        Special::Def => Ok(def_form(sources, args)),
        Special::Defn => defn_form(alloc, sources, args),
        Special::Prn => Ok(prn_form(args)),
        Special::Ledger => Ok(ledger_form(args)),
        _ => Ok(TopForm::StrayList),
    }
}

/// What `def` asks for: a symbol and an expression.
fn def_form(sources: &[Entry], args: &[usize]) -> TopForm
    requires lower { IsLower sources.now }
    requires below { AllBelow (length sources.now) args.now }
    ensures read { as_top sources.now result ≡ special_at_top DefWord (map (form_at sources.now) args.now) }
    ensures below { AllBelow (length sources.now) (numbers_in_top result) }
{
    match args {
        [name, value] if symbol(sources, *name).is_some() => TopForm::Def {
            name: *name,
            value: *value,
        },
        _ => TopForm::Wrong,
    }
}

/// What `defn` asks for: a symbol, and clauses.
fn defn_form(alloc: Global, sources: &[Entry], args: &[usize]) -> Result<TopForm, AllocError>
    requires lower { IsLower sources.now }
    requires below { AllBelow (length sources.now) args.now }
    ensures read { IfOk result (λ r. as_top sources.now r ≡ special_at_top DefnWord (map (form_at sources.now) args.now)) }
    ensures below { IfOk result (λ r. AllBelow (length sources.now) (numbers_in_top r)) }
{
    let [name, forms @ ..] = args else {
        return Ok(TopForm::Wrong);
    };
    if symbol(sources, *name).is_none() {
        return Ok(TopForm::Wrong);
    }
    match clauses(alloc, sources, forms)? {
        Some(clauses) => Ok(TopForm::Defn {
            name: *name,
            clauses,
        }),
        None => Ok(TopForm::Wrong),
    }
}

/// What `prn` asks for: one form.
fn prn_form(args: &[usize]) -> TopForm
    ensures read { (es : List Kept) → as_top es result ≡ special_at_top PrnWord (map (form_at es) args.now) }
    ensures below { (bound : ℕ) → AllBelow bound args.now → AllBelow bound (numbers_in_top result) }
{
    match args {
        [value] => TopForm::Prn(*value),
        _ => TopForm::Wrong,
    }
}

/// What `ledger` asks for: nothing.
fn ledger_form(args: &[usize]) -> TopForm
    ensures read { (es : List Kept) → as_top es result ≡ special_at_top LedgerWord (map (form_at es) args.now) }
    ensures below { (bound : ℕ) → AllBelow bound args.now → AllBelow bound (numbers_in_top result) }
{
    match args {
        [] => TopForm::Ledger,
        _ => TopForm::Wrong,
    }
}
