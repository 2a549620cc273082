//! What a list asks for, by the word that heads it and its arguments.
ghost use Rattle.std.specs.Prelude.{◌≡◌, ◌<◌, ℕ, List, length, map, IfOk, IfSome, is_some};
ghost use Rattle.std.specs.Option.{option_map};
ghost use Rattle.clj_script.specs.declared.source.Entry.{Entry as Kept};
ghost use Rattle.clj_script.specs.declared.words.Special.TheVariants.{Let as LetWord, If as IfWord, When as WhenWord, LazySeq as LazySeqWord};
ghost use Rattle.clj_script.specs.Arena.{AllBelow};
ghost use Rattle.clj_script.specs.Entries.{IsLower, form_at};
ghost use Rattle.clj_script.specs.Readings as spec;
ghost use Rattle.clj_script.specs.Reads.{as_read, numbers_in, pair_at, numbers_of_pairs, clause_at, numbers_of_clause, numbers_of_clauses};

use crate::source::{Entry, is_text, list, symbol, vector};
use crate::thread::Way;
use crate::words::{Reserved, Special, reserved_word};
use std::alloc::{AllocError, Global};

/// What a list asks for. Forms are named by their numbers.
#[derive(Drop)]
pub(crate) enum Reading<'a> {
    /// `()`
    Nothing,
    /// It is refused whole with this number.
    Refused(u8),
    /// The first form is put into each step in turn.
    Threaded {
        way: Way,
        first: usize,
        steps: &'a [usize],
    },
    Call {
        head: usize,
        args: &'a [usize],
    },
    /// Names with their expressions, and a body.
    Let {
        pairs: Vec<(usize, usize)>,
        body: usize,
    },
    If {
        test: usize,
        yes: usize,
        no: Option<usize>,
    },
    And(&'a [usize]),
    Or(&'a [usize]),
    LazySeq(usize),
}

/// A parameter vector and a body.
#[derive(Clone, Copy, Debug)]
pub(crate) struct Clause {
    /// The form at which a second body for as many parameters is refused.
    pub(crate) whole: usize,
    pub(crate) parameters: usize,
    pub(crate) body: usize,
}

/// The reserved word as which a form heads a list.
pub(crate) fn heading(sources: &[Entry], head: usize) -> Option<Reserved>
    requires lower { IsLower sources.now }
    requires below { head < length sources.now }
    ensures { result ≡ spec.heading (form_at sources.now head) }
{
    match symbol(sources, head) {
        Some(name) => reserved_word(name),
        None => None,
    }
}

/// What a list of these forms asks for.
pub(crate) fn read<'a>(
    alloc: Global,
    sources: &[Entry],
    items: &'a [usize],
) -> Result<Reading<'a>, AllocError>
    requires lower { IsLower sources.now }
    requires below { AllBelow (length sources.now) items.now }
    ensures read { IfOk result (λ r. as_read sources.now r ≡ spec.reading (map (form_at sources.now) items.now)) }
    ensures below { IfOk result (λ r. AllBelow (length sources.now) (numbers_in r)) }
{
    let [head, args @ ..] = items else {
        return Ok(Reading::Nothing);
    };
    match heading(sources, *head) {
        None => Ok(Reading::Call { head: *head, args }),
        Some(Reserved::Outside) => Ok(Reading::Refused(10)),
        Some(Reserved::Special(special)) => special_reading(alloc, sources, special, args),
    }
}

/// What a special form asks for.
fn special_reading<'a>(
    alloc: Global,
    sources: &[Entry],
    special: Special,
    args: &'a [usize],
) -> Result<Reading<'a>, AllocError>
    requires lower { IsLower sources.now }
    requires below { AllBelow (length sources.now) args.now }
    ensures read { IfOk result (λ r. as_read sources.now r ≡ spec.special_reading special (map (form_at sources.now) args.now)) }
    ensures below { IfOk result (λ r. AllBelow (length sources.now) (numbers_in r)) }
{
    match special {
        Special::Def | Special::Defn | Special::Prn | Special::Ledger => {
            elsewhere(alloc, sources, special, args)
        }
        Special::Let => let_reading(alloc, sources, args),
        Special::If => Ok(if_reading(args)),
        Special::When => Ok(when_reading(args)),
        Special::And => Ok(Reading::And(args)),
        Special::Or => Ok(Reading::Or(args)),
        Special::LazySeq => Ok(lazy_reading(args)),
        Special::ThreadSecond => Ok(threaded(Way::Second, args)),
        Special::ThreadLast => Ok(threaded(Way::Last, args)),
    }
}

/// A word of the top inside another form is refused.
fn elsewhere<'a>(
    alloc: Global,
    sources: &[Entry],
    special: Special,
    args: &'a [usize],
) -> Result<Reading<'a>, AllocError>
    requires lower { IsLower sources.now }
    requires below { AllBelow (length sources.now) args.now }
    ensures read { IfOk result (λ r. as_read sources.now r ≡ spec.elsewhere (spec.is_top_form special (map (form_at sources.now) args.now))) }
    ensures below { IfOk result (λ r. AllBelow (length sources.now) (numbers_in r)) }
{
    if is_top_form(alloc, sources, special, args)? {
        Ok(Reading::Refused(11))
    } else {
        Ok(Reading::Refused(9))
    }
}

/// What `let` asks for: a vector of pairs, and one body.
fn let_reading<'a>(
    alloc: Global,
    sources: &[Entry],
    args: &'a [usize],
) -> Result<Reading<'a>, AllocError>
    requires lower { IsLower sources.now }
    requires below { AllBelow (length sources.now) args.now }
    ensures read { IfOk result (λ r. as_read sources.now r ≡ spec.special_reading LetWord (map (form_at sources.now) args.now)) }
    ensures below { IfOk result (λ r. AllBelow (length sources.now) (numbers_in r)) }
{
    let [bindings, body] = args else {
        return Ok(Reading::Refused(9));
    };
    let Some(bindings) = vector(sources, *bindings) else {
        return Ok(Reading::Refused(9));
    };
    match paired(alloc, bindings)? {
        Some(pairs) => Ok(Reading::Let { pairs, body: *body }),
        None => Ok(Reading::Refused(9)),
    }
}

/// What `if` asks for: two forms or three.
fn if_reading(args: &[usize]) -> Reading<'_>
    ensures read { (es : List Kept) → as_read es result ≡ spec.special_reading IfWord (map (form_at es) args.now) }
    ensures below { (bound : ℕ) → AllBelow bound args.now → AllBelow bound (numbers_in result) }
{
    match args {
        [test, yes] => Reading::If {
            test: *test,
            yes: *yes,
            no: None,
        },
        [test, yes, no] => Reading::If {
            test: *test,
            yes: *yes,
            no: Some(*no),
        },
        _ => Reading::Refused(9),
    }
}

/// What `when` asks for: two forms, as an `if` without its third.
fn when_reading(args: &[usize]) -> Reading<'_>
    ensures read { (es : List Kept) → as_read es result ≡ spec.special_reading WhenWord (map (form_at es) args.now) }
    ensures below { (bound : ℕ) → AllBelow bound args.now → AllBelow bound (numbers_in result) }
{
    match args {
        [test, body] => Reading::If {
            test: *test,
            yes: *body,
            no: None,
        },
        _ => Reading::Refused(9),
    }
}

/// What `lazy-seq` asks for: one form.
fn lazy_reading(args: &[usize]) -> Reading<'_>
    ensures read { (es : List Kept) → as_read es result ≡ spec.special_reading LazySeqWord (map (form_at es) args.now) }
    ensures below { (bound : ℕ) → AllBelow bound args.now → AllBelow bound (numbers_in result) }
{
    match args {
        [body] => Reading::LazySeq(*body),
        _ => Reading::Refused(9),
    }
}

/// What a threading word asks for: at least one form.
fn threaded(way: Way, args: &[usize]) -> Reading<'_>
    ensures read { (es : List Kept) → as_read es result ≡ spec.threaded way (map (form_at es) args.now) }
    ensures below { (bound : ℕ) → AllBelow bound args.now → AllBelow bound (numbers_in result) }
{
    match args {
        [] => Reading::Refused(9),
        [first, steps @ ..] => Reading::Threaded {
            way,
            first: *first,
            steps,
        },
    }
}

/// Forms in pairs, where their number is even.
fn paired(alloc: Global, items: &[usize]) -> Result<Option<Vec<(usize, usize)>>, AllocError>
    ensures pairs { IfOk result (λ found. (es : List Kept) → option_map (λ pairs. map (pair_at es) pairs.items) found ≡ spec.paired (map (form_at es) items.now)) }
    ensures below { IfOk result (λ found. (bound : ℕ) → AllBelow bound items.now → IfSome found (λ pairs. AllBelow bound (numbers_of_pairs pairs.items))) }
{
    let mut pairs = Vec::new(alloc);
    let mut rest = items;
    while let [name, value, more @ ..] = rest {
        pairs.push((*name, *value))?;
        rest = more;
    }
    if rest.is_empty() {
        Ok(Some(pairs))
    } else {
        Ok(None)
    }
}

/// Whether these are arguments of a form of the top.
fn is_top_form(
    alloc: Global,
    sources: &[Entry],
    special: Special,
    args: &[usize],
) -> Result<bool, AllocError>
    requires lower { IsLower sources.now }
    requires below { AllBelow (length sources.now) args.now }
    ensures { IfOk result (λ b. b ≡ spec.is_top_form special (map (form_at sources.now) args.now)) }
{
    match (special, args) {
        (Special::Def, [name, _]) => Ok(symbol(sources, *name).is_some()),
        (Special::Defn, [name, forms @ ..]) => {
            if symbol(sources, *name).is_none() {
                return Ok(false);
            }
            let found = clauses(alloc, sources, forms)?;
            Ok(found.is_some())
        }
        (Special::Prn, [_]) => Ok(true),
        (Special::Ledger, []) => Ok(true),
        _ => Ok(false),
    }
}

/// The clauses of a `defn` behind its name.
pub(crate) fn clauses(
    alloc: Global,
    sources: &[Entry],
    forms: &[usize],
) -> Result<Option<Vec<Clause>>, AllocError>
    requires lower { IsLower sources.now }
    requires below { AllBelow (length sources.now) forms.now }
    ensures clauses { IfOk result (λ found. option_map (λ cs. map (clause_at sources.now) cs.items) found ≡ spec.clauses (map (form_at sources.now) forms.now)) }
    ensures below { IfOk result (λ found. IfSome found (λ cs. AllBelow (length sources.now) (numbers_of_clauses cs.items))) }
{
    match forms {
        [text, rest @ ..] if is_text(sources, *text) => clauses_behind(alloc, sources, rest),
        _ => clauses_behind(alloc, sources, forms),
    }
}

/// The clauses behind a name and a text: either a parameter vector and one body, or lists of both.
fn clauses_behind(
    alloc: Global,
    sources: &[Entry],
    forms: &[usize],
) -> Result<Option<Vec<Clause>>, AllocError>
    requires lower { IsLower sources.now }
    requires below { AllBelow (length sources.now) forms.now }
    ensures clauses { IfOk result (λ found. option_map (λ cs. map (clause_at sources.now) cs.items) found ≡ spec.clauses_behind (map (form_at sources.now) forms.now)) }
    ensures below { IfOk result (λ found. IfSome found (λ cs. AllBelow (length sources.now) (numbers_of_clauses cs.items))) }
{
    if let [parameters, body] = forms {
        if vector(sources, *parameters).is_some() {
            let mut one = Vec::new(alloc);
            one.push(Clause {
                whole: *parameters,
                parameters: *parameters,
                body: *body,
            })?;
            return Ok(Some(one));
        }
    }
    if forms.is_empty() {
        return Ok(None);
    }
    clauses_of_lists(alloc, sources, forms)
}

/// Lists, each of a parameter vector and one body.
fn clauses_of_lists(
    alloc: Global,
    sources: &[Entry],
    forms: &[usize],
) -> Result<Option<Vec<Clause>>, AllocError>
    requires lower { IsLower sources.now }
    requires below { AllBelow (length sources.now) forms.now }
    ensures clauses { IfOk result (λ found. option_map (λ cs. map (clause_at sources.now) cs.items) found ≡ spec.clauses_of_lists (map (form_at sources.now) forms.now)) }
    ensures below { IfOk result (λ found. IfSome found (λ cs. AllBelow (length sources.now) (numbers_of_clauses cs.items))) }
{
    let mut all = Vec::new(alloc);
    for form in forms {
        match clause_of_list(sources, *form) {
            Some(clause) => all.push(clause)?,
            None => return Ok(None),
        }
    }
    Ok(Some(all))
}

/// A list of a parameter vector and one body.
fn clause_of_list(sources: &[Entry], form: usize) -> Option<Clause>
    requires lower { IsLower sources.now }
    requires below { form < length sources.now }
    ensures clause { option_map (clause_at sources.now) result ≡ spec.clause_of_list (form_at sources.now form) }
    ensures below { IfSome result (λ c. AllBelow (length sources.now) (numbers_of_clause c)) }
{
    let Some([parameters, body]) = list(sources, form) else {
        return None;
    };
    if vector(sources, *parameters).is_none() {
        return None;
    }
    Some(Clause {
        whole: form,
        parameters: *parameters,
        body: *body,
    })
}
