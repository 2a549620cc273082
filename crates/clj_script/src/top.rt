//! Compiles the forms at the top, from the first to the last.
ghost use Rattle.std.specs.Prelude.{◌≡◌, ◌<◌, [], ◌∷◌, length, map, true, false, None, OnOk, IfOk, All, ◌==◌};
ghost use Rattle.std.specs.List.{list_any};
ghost use Rattle.clj_script.specs.Arena.{AllBelow};
ghost use Rattle.clj_script.specs.Entries.{IsLower, form_at};
ghost use Rattle.clj_script.specs.Machines.{IsSound, IsIdle};
ghost use Rattle.clj_script.specs.Reads.{is_threading, clause_at, numbers_of_clause, numbers_of_clauses};
ghost use Rattle.clj_script.specs.Readings.{is_symbol, is_vector, heading as heading_word};
ghost use Rattle.clj_script.specs.Refusals.{refusal, earliest};
ghost use Rattle.clj_script.specs.Scripts.{nothing_yet, top_reading, stray_list, prn_of, ledger_of, def_of, defn_of};
ghost use Rattle.clj_script.specs.Sources.{Source, place_of};
ghost use Rattle.clj_script.specs.Tops.{so_far, IsWhole, HasTaken, HasTakenAs, IsRefused, IsUnthreaded, HasCompiled, HasDefined, HasClauses, HasParameters, HasNames, counts_of, way_of, refused_at};

use crate::definitions::{Definitions, Meaning, define, is_taken, is_unfit};
use crate::locals::{Locals, number_of};
use crate::machine::Machine;
use crate::program::{Body, Top};
use crate::reading::{Clause, heading};
use crate::refusal::Least;
use crate::source::{Entry, list, place_at, symbol, vector};
use crate::thread::{Way, written_out};
use crate::top_form::{TopForm, top_form};
use crate::words::{Reserved, Special};
use clj_reader::Place;
use std::alloc::{AllocError, Global};

/// What the forms so far have given.
#[derive(Drop)]
pub(crate) struct Tops {
    /// The forms of the script, and those that threading wrote.
    pub(crate) sources: Vec<Entry>,
    pub(crate) machine: Machine,
    pub(crate) definitions: Definitions,
    pub(crate) functions: Vec<Vec<Body>>,
    pub(crate) tops: Vec<Top>,
}

impl Tops {
    /// With no form yet.
    pub(crate) fn new(alloc: Global) -> Tops
        ensures whole { IsWhole [] result }
        ensures forms { result.sources.items ≡ [] }
        ensures nothing { so_far result ≡ nothing_yet }
        ensures least { result.machine.least.found ≡ None }
    {
        Tops {
            sources: Vec::new(alloc),
            machine: Machine::new(alloc),
            definitions: Definitions::new(alloc),
            functions: Vec::new(alloc),
            tops: Vec::new(alloc),
        }
    }

    /// Takes one more form, once its threading is written out.
    pub(crate) fn take(&mut self, alloc: Global, form: usize) -> Result<(), AllocError>
        requires whole { IsWhole [] self.old }
        requires below { form < length self.old.sources.items }
        ensures { OnOk result (HasTaken self.old self.new (form_at self.old.sources.items form)) }
    {
        let mut standing = form;
        while let Some(written) = self.unthreaded(alloc, standing)? {
            standing = written;
        }
        self.take_form(alloc, standing)
    }

    /// The form that a threading form stands for.
    fn unthreaded(&mut self, alloc: Global, form: usize) -> Result<Option<usize>, AllocError>
        requires whole { IsWhole [] self.old }
        requires below { form < length self.old.sources.items }
        ensures { IfOk result (λ found. IsUnthreaded self.old self.new (form_at self.old.sources.items form) found) }
    {
        let sources = self.sources.as_slice();
        let Some(items) = list(sources, form) else {
            return Ok(None);
        };
        let [head, first, steps @ ..] = items else {
            return Ok(None);
        };
        let Some(way) = threading(sources, *head) else {
            return Ok(None);
        };
        let first = *first;
        let steps = Vec::from_slice(alloc, steps)?;
        let written = written_out(
            alloc,
            &mut self.sources,
            &mut self.machine.least,
            way,
            first,
            steps.as_slice(),
        )?;
        Ok(Some(written))
    }

    /// Takes a form that is no threading.
    fn take_form(&mut self, alloc: Global, form: usize) -> Result<(), AllocError>
        requires whole { IsWhole [] self.old }
        requires below { form < length self.old.sources.items }
        requires plain { is_threading (top_reading (form_at self.old.sources.items form)) ≡ false }
        ensures { OnOk result (HasTaken self.old self.new (form_at self.old.sources.items form)) }
    {
        match top_form(alloc, self.sources.as_slice(), form)? {
            TopForm::Stray => {
                self.refuse(10, form);
                Ok(())
            }
            TopForm::StrayList => self.stray_list(alloc, form),
            TopForm::Wrong => {
                self.refuse(9, form);
                Ok(())
            }
            TopForm::Def { name, value } => self.def(alloc, name, value),
            TopForm::Defn { name, clauses } => self.defn(alloc, name, clauses.as_slice()),
            TopForm::Prn(value) => self.prn(alloc, value),
            TopForm::Ledger => self.ledger(),
        }
    }

    /// Refuses a form with this number.
    fn refuse(&mut self, number: u8, form: usize)
        requires lower { IsLower self.old.sources.items }
        requires below { form < length self.old.sources.items }
        ensures { IsRefused self.old self.new (refusal number (place_of (form_at self.old.sources.items form))) }
    {
        let place = place_at(self.sources.as_slice(), form);
        self.machine.least.refuse(number, place);
    }

    /// Compiles a form as an expression.
    fn expression(&mut self, alloc: Global, form: usize) -> Result<u32, AllocError>
        requires sound { IsSound self.old.machine }
        requires idle { IsIdle self.old.machine }
        requires lower { IsLower self.old.sources.items }
        requires below { form < length self.old.sources.items }
        ensures { IfOk result (λ n. HasCompiled self.old self.new (form_at self.old.sources.items form) n) }
    {
        self.machine
            .expression(alloc, &mut self.sources, &self.definitions, form)
    }

    /// Refuses a list that isn't headed by one of the four words, and all that is refused of it as an expression.
    fn stray_list(&mut self, alloc: Global, form: usize) -> Result<(), AllocError>
        requires whole { IsWhole [] self.old }
        requires below { form < length self.old.sources.items }
        ensures { OnOk result (HasTakenAs self.old self.new (form_at self.old.sources.items form) stray_list) }
    {
        self.refuse(10, form);
        let _unused = self.expression(alloc, form)?;
        Ok(())
    }

    /// Takes a `prn`.
    fn prn(&mut self, alloc: Global, value: usize) -> Result<(), AllocError>
        requires whole { IsWhole [] self.old }
        requires below { value < length self.old.sources.items }
        ensures { OnOk result ((s : Source) → HasTakenAs self.old self.new s (prn_of (form_at self.old.sources.items value))) }
    {
        let expr = self.expression(alloc, value)?;
        self.tops.push(Top::Prn { expr })?;
        Ok(())
    }

    /// Takes a `ledger`.
    fn ledger(&mut self) -> Result<(), AllocError>
        requires whole { IsWhole [] self.old }
        ensures { OnOk result ((s : Source) → HasTakenAs self.old self.new s ledger_of) }
    {
        self.tops.push(Top::Ledger)?;
        Ok(())
    }

    /// Takes a `def`. The name is known from the next form on.
    fn def(&mut self, alloc: Global, name: usize, value: usize) -> Result<(), AllocError>
        requires whole { IsWhole [] self.old }
        requires name_below { name < length self.old.sources.items }
        requires value_below { value < length self.old.sources.items }
        requires symbol { is_symbol (form_at self.old.sources.items name) ≡ true }
        ensures { OnOk result ((s : Source) → HasTakenAs self.old self.new s (def_of (form_at self.old.sources.items name) (form_at self.old.sources.items value))) }
    {
        let expr = self.expression(alloc, value)?;
        let form = number_of(self.tops.len() + 1)?;
        if let Some(name) = self.defined(alloc, name, Meaning::Form(form))? {
            self.tops.push(Top::Def { name, expr })?;
        }
        Ok(())
    }

    /// Defines a name, and gives its number. One that is taken is refused. One that may not be bound is refused, and defined all
    /// the same.
    fn defined(
        &mut self,
        alloc: Global,
        name: usize,
        meaning: Meaning,
    ) -> Result<Option<u32>, AllocError>
        requires lower { IsLower self.old.sources.items }
        requires below { name < length self.old.sources.items }
        requires symbol { is_symbol (form_at self.old.sources.items name) ≡ true }
        ensures { IfOk result (λ found. HasDefined self.old self.new (form_at self.old.sources.items name) meaning found) }
    {
        let sources = self.sources.as_slice();
        let Some(text) = symbol(sources, name) else {
            unreachable!();
        };
        if is_taken(text, &self.definitions) {
            self.refuse(8, name);
            return Ok(None);
        }
        let unfit = is_unfit(text);
        let number = define(alloc, &mut self.definitions, text, meaning)?;
        if unfit {
            self.refuse(10, name);
        }
        Ok(Some(number))
    }

    /// Takes a `defn`. The name is known in its own bodies.
    fn defn(&mut self, alloc: Global, name: usize, clauses: &[Clause]) -> Result<(), AllocError>
        requires whole { IsWhole [] self.old }
        requires name_below { name < length self.old.sources.items }
        requires symbol { is_symbol (form_at self.old.sources.items name) ≡ true }
        requires below { AllBelow (length self.old.sources.items) (numbers_of_clauses clauses.now) }
        requires vectors { All (λ c. is_vector (form_at self.old.sources.items c.parameters) ≡ true) clauses.now }
        ensures { OnOk result ((s : Source) → HasTakenAs self.old self.new s (defn_of (form_at self.old.sources.items name) (map (clause_at self.old.sources.items) clauses.now))) }
    {
        let function = number_of(self.functions.len())?;
        let known = self.defined(alloc, name, Meaning::Function(function))?;
        let bodies = self.bodies(alloc, clauses)?;
        if known.is_some() {
            self.functions.push(bodies)?;
            self.tops.push(Top::Defn)?;
        }
        Ok(())
    }

    /// Compiles the clauses of a function.
    fn bodies(&mut self, alloc: Global, clauses: &[Clause]) -> Result<Vec<Body>, AllocError>
        requires whole { IsWhole [] self.old }
        requires below { AllBelow (length self.old.sources.items) (numbers_of_clauses clauses.now) }
        requires vectors { All (λ c. is_vector (form_at self.old.sources.items c.parameters) ≡ true) clauses.now }
        ensures { IfOk result (λ bodies. HasClauses self.old self.new [] (map (clause_at self.old.sources.items) clauses.now) bodies.items) }
    {
        let mut bodies = Vec::new(alloc);
        for clause in clauses {
            let body = self.body(alloc, bodies.as_slice(), clause)?;
            bodies.push(body)?;
        }
        Ok(bodies)
    }

    /// Compiles a clause behind these bodies. A second body for as many parameters is refused.
    fn body(&mut self, alloc: Global, bodies: &[Body], clause: &Clause) -> Result<Body, AllocError>
        requires whole { IsWhole [] self.old }
        requires below { AllBelow (length self.old.sources.items) (numbers_of_clause clause.now) }
        requires vector { is_vector (form_at self.old.sources.items clause.now.parameters) ≡ true }
        ensures { IfOk result (λ body. HasClauses self.old self.new (counts_of bodies.now) (clause_at self.old.sources.items clause.now ∷ []) (body ∷ [])) }
    {
        let count = self.bind_parameters(alloc, clause.parameters)?;
        let expr = self.expression(alloc, clause.body)?;
        unbind(&mut self.machine.locals, count);
        let parameters = number_of(count)?;
        let place = place_at(self.sources.as_slice(), clause.whole);
        refuse_if(&mut self.machine.least, is_among(bodies, parameters), place);
        Ok(Body { parameters, expr })
    }

    /// Binds the parameters in a vector, and gives their count. More than 20 are refused.
    fn bind_parameters(&mut self, alloc: Global, parameters: usize) -> Result<usize, AllocError>
        requires whole { IsWhole [] self.old }
        requires below { parameters < length self.old.sources.items }
        requires vector { is_vector (form_at self.old.sources.items parameters) ≡ true }
        ensures { IfOk result (λ count. HasParameters self.old self.new (form_at self.old.sources.items parameters) count) }
    {
        let sources = self.sources.as_slice();
        let Some(names) = vector(sources, parameters) else {
            unreachable!();
        };
        let place = place_at(sources, parameters);
        refuse_if(&mut self.machine.least, names.len() > 20, place);
        bind_all(&mut self.machine, alloc, sources, names)?;
        Ok(names.len())
    }
}

/// Refuses a place with 10, where this is to be refused.
fn refuse_if(least: &mut Least, refused: bool, place: Place)
    ensures { least.new.found ≡ earliest least.old.found (refused_at refused place) }
{
    if refused {
        least.refuse(10, place);
    }
}

/// Binds parameters of these names. One that can't be bound or is bound already is refused, and bound all the same.
fn bind_all(
    machine: &mut Machine,
    alloc: Global,
    sources: &[Entry],
    names: &[usize],
) -> Result<(), AllocError>
    requires scope { machine.old.locals ≡ [] }
    requires lower { IsLower sources.now }
    requires below { AllBelow (length sources.now) names.now }
    ensures { OnOk result (HasNames machine.old machine.new (map (form_at sources.now) names.now)) }
{
    for name in names {
        machine.bind_parameter(alloc, sources, *name)?;
    }
    Ok(())
}

/// Takes all locals out of scope, of which there are so many.
fn unbind(locals: &mut Locals, count: usize)
    requires { length locals.old ≡ count }
    ensures { locals.new ≡ [] }
{
    for _ in 0..count {
        locals.unbind();
    }
}

/// Where a threading word that heads a form puts what stands so far.
fn threading(sources: &[Entry], head: usize) -> Option<Way>
    requires lower { IsLower sources.now }
    requires below { head < length sources.now }
    ensures { result ≡ way_of (heading_word (form_at sources.now head)) }
{
    match heading(sources, head) {
        Some(Reserved::Special(Special::ThreadSecond)) => Some(Way::Second),
        Some(Reserved::Special(Special::ThreadLast)) => Some(Way::Last),
        _ => None,
    }
}

/// Whether a body has that number of parameters.
fn is_among(bodies: &[Body], parameters: u32) -> bool
    ensures { result ≡ list_any (λ n. n == parameters) (counts_of bodies.now) }
{
    bodies.iter().any(|body| body.parameters == parameters)
}
