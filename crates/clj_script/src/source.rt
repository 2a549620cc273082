//! The forms of a script as the compiler takes them apart, and the forms that threading writes.
ghost use Rattle.std.specs.Prelude.{◌≡◌, ◌<◌, [], ◌∷◌, ◌++◌, length, IfOk, OnOk, Some, None, map};
ghost use Rattle.std.specs.Option.{option_copied};
ghost use Rattle.clj_script.specs.Arena.{AllBelow};
ghost use Rattle.clj_script.specs.Entries.{parts_of, form_over, forms_of, form_at, AreItems, IsLower, AreAdded, IsAdded, IsContent};
ghost use Rattle.clj_script.specs.Sources.{source_of, source_of_shape, sources_of, place_of, spelling, in_round, in_square, is_text_source};

use crate::atom::Atom;
use clj_reader::{Form, Forms, Place, Shape};
use seq_values::Text;
use std::alloc::{AllocError, Global};

/// A form. It holds others by their numbers, which are lower than its own.
#[derive(Drop)]
pub(crate) struct Entry {
    pub(crate) place: Place,
    pub(crate) content: Content,
}

#[derive(Drop)]
pub(crate) enum Content {
    Literal(Atom),
    Symbol(Vec<u8>),
    List(Vec<usize>),
    Vector(Vec<usize>),
}

/// Puts one more form at the end, and gives its number.
#[tactic(auto, using(crate::proofs::EntryLemmas::added))]
pub(crate) fn add(sources: &mut Vec<Entry>, entry: Entry) -> Result<usize, AllocError>
    requires lower { IsLower sources.old.items }
    requires below { AllBelow (length sources.old.items) (parts_of entry) }
    ensures { IfOk result (λ n. IsAdded sources.old.items sources.new.items n (form_over (forms_of sources.old.items) entry)) }
{
    let number = sources.len();
    sources.push(entry)?;
    Ok(number)
}

/// Puts a form of the reader at the end, behind the forms that it holds, and gives its number.
#[cycle(reading)]
#[tactic(auto, using(crate::proofs::EntryLemmas::of_content))]
pub(crate) fn add_form(
    alloc: Global,
    sources: &mut Vec<Entry>,
    form: &Form,
) -> Result<usize, AllocError>
    requires { IsLower sources.old.items }
    ensures { IfOk result (λ n. IsAdded sources.old.items sources.new.items n (source_of form.now)) }
{
    let content = content_of(alloc, sources, &form.shape)?;
    let place = form.place;
    add(sources, Entry { place, content })
}

/// Puts the forms that a form of the reader holds at the end, and gives its content.
#[cycle(reading)]
#[tactic(auto, using(crate::proofs::EntryLemmas::of_nothing, crate::proofs::EntryLemmas::of_list, crate::proofs::EntryLemmas::of_vector))]
fn content_of(alloc: Global, sources: &mut Vec<Entry>, shape: &Shape) -> Result<Content, AllocError>
    requires { IsLower sources.old.items }
    ensures { IfOk result (λ c. IsContent sources.old.items sources.new.items c (source_of_shape shape.now)) }
{
    match shape {
        Shape::Nil => Ok(Content::Literal(Atom::Nil)),
        Shape::Bool(truth) => Ok(Content::Literal(Atom::Bool(*truth))),
        Shape::Int(number) => Ok(Content::Literal(Atom::Int(*number))),
        Shape::Text(name) => {
            let text = text(alloc, name.bytes())?;
            Ok(Content::Literal(Atom::Text(text)))
        }
        Shape::Keyword(name) => {
            let name = text(alloc, name.bytes())?;
            Ok(Content::Literal(Atom::Keyword(name)))
        }
        Shape::Symbol(name) => {
            let name = Vec::from_slice(alloc, name.bytes())?;
            Ok(Content::Symbol(name))
        }
        Shape::List(forms) => {
            let items = add_forms(alloc, sources, forms)?;
            Ok(Content::List(items))
        }
        Shape::Vector(forms) => {
            let items = add_forms(alloc, sources, forms)?;
            Ok(Content::Vector(items))
        }
    }
}

/// Puts forms of the reader at the end, and gives their numbers.
#[cycle(reading)]
#[tactic(auto, using(crate::proofs::EntryLemmas::one_more_form, crate::proofs::EntryLemmas::none_added))]
pub(crate) fn add_forms(
    alloc: Global,
    sources: &mut Vec<Entry>,
    forms: &Forms,
) -> Result<Vec<usize>, AllocError>
    requires { IsLower sources.old.items }
    ensures { IfOk result (λ ns. AreAdded sources.old.items sources.new.items ns.items (sources_of forms.now)) }
{
    let mut numbers = Vec::new(alloc);
    for at in 0..forms.len() {
        let Some(form) = forms.get(at) else {
            unreachable!();
        };
        let number = add_form(alloc, sources, form)?;
        numbers.push(number)?;
    }
    Ok(numbers)
}

/// A text of its own.
fn text(alloc: Global, bytes: &[u8]) -> Result<Text, AllocError>
    ensures { IfOk result (λ text. text ≡ bytes.now) }
{
    match Text::of(alloc, bytes) {
        Ok(text) => Ok(text),
        Err(_) => Err(AllocError),
    }
}

/// The form with a number.
pub(crate) fn entry_at(sources: &[Entry], number: usize) -> &Entry
    requires lower { IsLower sources.now }
    requires below { number < length sources.now }
    ensures reads { form_at sources.now number ≡ form_over (forms_of sources.now) result.now }
    ensures parts { AllBelow (length sources.now) (parts_of result.now) }
{
    &sources[number]
}

/// The place of a form.
pub(crate) fn place_at(sources: &[Entry], number: usize) -> Place
    requires lower { IsLower sources.now }
    requires below { number < length sources.now }
    ensures { result ≡ place_of (form_at sources.now number) }
{
    entry_at(sources, number).place
}

/// The spelling of a form that is a symbol.
pub(crate) fn symbol(sources: &[Entry], number: usize) -> Option<&[u8]>
    requires lower { IsLower sources.now }
    requires below { number < length sources.now }
    ensures { option_copied result ≡ spelling (form_at sources.now number) }
{
    match &entry_at(sources, number).content {
        Content::Symbol(name) => Some(name.as_slice()),
        _ => None,
    }
}

/// The forms in a form that is a list.
#[tactic(auto, using(crate::proofs::EntryLemmas::list_items))]
pub(crate) fn list(sources: &[Entry], number: usize) -> Option<&[usize]>
    requires lower { IsLower sources.now }
    requires below { number < length sources.now }
    ensures { AreItems sources.now result (in_round (form_at sources.now number)) }
{
    match &entry_at(sources, number).content {
        Content::List(items) => Some(items.as_slice()),
        _ => None,
    }
}

/// The forms in a form that is a vector.
#[tactic(auto, using(crate::proofs::EntryLemmas::vector_items))]
pub(crate) fn vector(sources: &[Entry], number: usize) -> Option<&[usize]>
    requires lower { IsLower sources.now }
    requires below { number < length sources.now }
    ensures { AreItems sources.now result (in_square (form_at sources.now number)) }
{
    match &entry_at(sources, number).content {
        Content::Vector(items) => Some(items.as_slice()),
        _ => None,
    }
}

/// Whether a form is a text.
pub(crate) fn is_text(sources: &[Entry], number: usize) -> bool
    requires lower { IsLower sources.now }
    requires below { number < length sources.now }
    ensures { result ≡ is_text_source (form_at sources.now number) }
{
    match &entry_at(sources, number).content {
        Content::Literal(Atom::Text(_)) => true,
        _ => false,
    }
}
