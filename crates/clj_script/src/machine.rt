//! Compiles one expression after the other by tasks, whatever the depth of the forms.
ghost use Rattle.std.specs.Prelude.{List, Some, None, ◌≡◌, ◌+◌, ◌≤◌, ◌<◌, [], ◌∷◌, ◌++◌, length, map, OnOk, IfOk, true, is_some, if◌then◌else◌};
ghost use Rattle.std.specs.List.{list_any};
ghost use Rattle.std.specs.Str.{bytes_eq};
ghost use Rattle.clj_script.specs.Arena.{AllBelow};
ghost use Rattle.clj_script.specs.Nodes.{tree_over, parts_of, is_writable};
ghost use Rattle.clj_script.specs.Entries.{IsLower, form_at};
ghost use Rattle.clj_script.specs.Judgements.{nil_expr};
ghost use Rattle.clj_script.specs.Readings as spec;
ghost use Rattle.clj_script.specs.Reads.{as_read, numbers_in};
ghost use Rattle.clj_script.specs.Refusals.{refusal};
ghost use Rattle.clj_script.specs.Scopes.{Definitions as Known};
ghost use Rattle.clj_script.specs.Scopes as scope;
ghost use Rattle.clj_script.specs.Sources.{Source, in_round};
ghost use Rattle.clj_script.specs.Threading as thread;
ghost use Rattle.clj_script.specs.Names.{defined};
ghost use Rattle.clj_script.specs.Machines.{IsSound, AreWithin, HasGiven, HasAnswered, HasLooked, HasDone, HasBuilt, HasBound, HasParameter, HasJudged, Takes, IsIdle, trees, Enough, todo_at, todos, task_numbers, taking, look, asks, gives, plan_of, plan_of_name, plan_of_reading};

use crate::definitions::{Definitions, is_unfit, named};
use crate::expr::{Expr, Numbers};
use crate::locals::{Locals, number_of};
use crate::reading::{Reading, read};
use crate::refusal::Least;
use crate::source::{Content, Entry, entry_at, list, place_at, symbol};
use crate::task::{Build, Task, push_all, push_call, push_if, push_let, push_one};
use crate::thread::{Way, written_out};
use clj_reader::Place;
use seq_values::{Node, Value};
use std::alloc::{AllocError, Global};

/// The expressions that were compiled so far, and what is being compiled.
#[derive(Drop)]
pub(crate) struct Machine {
    pub(crate) nodes: Vec<Expr>,
    /// The bodies of the `lazy-seq`s.
    pub(crate) bodies: Vec<u32>,
    pub(crate) locals: Locals,
    pub(crate) least: Least,
    /// The expressions that are parts of others to come, the last on top.
    pub(crate) values: Vec<u32>,
    /// What is to be done, the next on top.
    pub(crate) tasks: Vec<Task>,
}

impl Machine {
    /// With nothing compiled yet.
    pub(crate) fn new(alloc: Global) -> Machine
        ensures sound { IsSound result }
        ensures idle { IsIdle result }
        ensures nodes { result.nodes.items ≡ [] }
        ensures bodies { result.bodies.items ≡ [] }
        ensures locals { result.locals ≡ [] }
        ensures least { result.least.found ≡ None }
    {
        Machine {
            nodes: Vec::new(alloc),
            bodies: Vec::new(alloc),
            locals: Locals::new(alloc),
            least: Least { found: None },
            values: Vec::new(alloc),
            tasks: Vec::new(alloc),
        }
    }

    /// Compiles a form, and gives the number of its expression.
    pub(crate) fn expression(
        &mut self,
        alloc: Global,
        sources: &mut Vec<Entry>,
        definitions: &Definitions,
        form: usize,
    ) -> Result<u32, AllocError>
        requires sound { IsSound self.old }
        requires idle { IsIdle self.old }
        requires lower { IsLower sources.old.items }
        requires below { form < length sources.old.items }
        ensures { IfOk result (λ n. HasJudged (defined definitions.now.entries) sources.old.items self.old sources.new.items self.new (form_at sources.old.items form) n) }
    {
        self.tasks.push(Task::Look(form))?;
        while let Some(task) = self.tasks.pop() {
            self.carry_out(alloc, sources, definitions, task)?;
        }
        match self.values.pop() {
            Some(number) => Ok(number),
            None => unreachable!(),
        }
    }

    /// Does what is to be done next.
    fn carry_out(
        &mut self,
        alloc: Global,
        sources: &mut Vec<Entry>,
        definitions: &Definitions,
        task: Task,
    ) -> Result<(), AllocError>
        requires sound { IsSound self.old }
        requires lower { IsLower sources.old.items }
        requires within { AreWithin (length sources.old.items) self.old.tasks.items }
        requires below { AllBelow (length sources.old.items) (task_numbers task) }
        requires enough { Enough (todo_at sources.old.items task ∷ todos sources.old.items self.old.tasks.items) (length self.old.values.items) }
        ensures { OnOk result (HasDone (defined definitions.now.entries) sources.old.items self.old sources.new.items self.new (todo_at sources.old.items task)) }
    {
        match task {
            Task::Look(form) => self.look(alloc, sources, definitions, form),
            Task::Bind(name) => self.bind(alloc, sources.as_slice(), name),
            Task::Build(build) => self.build(build),
        }
    }

    /// Looks at a form as an expression.
    fn look(
        &mut self,
        alloc: Global,
        sources: &mut Vec<Entry>,
        definitions: &Definitions,
        form: usize,
    ) -> Result<(), AllocError>
        requires sound { IsSound self.old }
        requires lower { IsLower sources.old.items }
        requires within { AreWithin (length sources.old.items) self.old.tasks.items }
        requires below { form < length sources.old.items }
        ensures { OnOk result (HasLooked sources.old.items self.old sources.new.items self.new (plan_of (defined definitions.now.entries) self.old.locals (form_at sources.old.items form))) }
    {
        let entry = entry_at(sources.as_slice(), form);
        let place = entry.place;
        match &entry.content {
            Content::Literal(atom) => {
                let value = atom.value()?;
                self.give(Expr::Literal(value))
            }
            Content::Symbol(name) => self.look_at_name(definitions, name.as_slice(), place),
            Content::Vector(items) => {
                let items = items.as_slice();
                push_all(&mut self.tasks, items, Build::Vector(items.len()))
            }
            Content::List(_) => self.look_at_list(alloc, sources, form),
        }
    }

    /// Looks at a name. One that stands for nothing is refused, and nil.
    fn look_at_name(
        &mut self,
        definitions: &Definitions,
        name: &[u8],
        place: Place,
    ) -> Result<(), AllocError>
        requires sound { IsSound self.old }
        ensures { OnOk result (HasAnswered self.old self.new (plan_of_name place (scope.named (defined definitions.now.entries) self.old.locals name.now))) }
    {
        match named(name, &self.locals, definitions) {
            Ok(expr) => self.give(expr),
            Err(number) => self.refuse_whole(number, place),
        }
    }

    /// Looks at a list.
    #[tactic(auto, using(crate::proofs::LiteralLemmas::empty_written))]
    fn look_at_list(
        &mut self,
        alloc: Global,
        sources: &mut Vec<Entry>,
        form: usize,
    ) -> Result<(), AllocError>
        requires sound { IsSound self.old }
        requires lower { IsLower sources.old.items }
        requires within { AreWithin (length sources.old.items) self.old.tasks.items }
        requires below { form < length sources.old.items }
        requires list { is_some (in_round (form_at sources.old.items form)) ≡ true }
        ensures { OnOk result ((d : Known) → HasLooked sources.old.items self.old sources.new.items self.new (plan_of d self.old.locals (form_at sources.old.items form))) }
    {
        let forms = sources.as_slice();
        let place = place_at(forms, form);
        match reading_at(alloc, forms, form)? {
            Reading::Nothing => self.give(Expr::Literal(Value::Node(Node::Empty))),
            Reading::Refused(number) => self.refuse_whole(number, place),
            Reading::Threaded { way, first, steps } => {
                let steps = Vec::from_slice(alloc, steps)?;
                self.look_at_threaded(alloc, sources, way, first, steps.as_slice())
            }
            Reading::Call { head, args } => push_call(&mut self.tasks, head, args),
            Reading::Let { pairs, body } => push_let(&mut self.tasks, pairs.as_slice(), body),
            Reading::If { test, yes, no } => push_if(&mut self.tasks, test, yes, no),
            Reading::And(args) => push_all(&mut self.tasks, args, Build::And(args.len())),
            Reading::Or(args) => push_all(&mut self.tasks, args, Build::Or(args.len())),
            Reading::LazySeq(body) => push_one(&mut self.tasks, body, Build::LazySeq),
        }
    }

    /// Looks at a threading form: writes it out, and looks at what it stands for.
    fn look_at_threaded(
        &mut self,
        alloc: Global,
        sources: &mut Vec<Entry>,
        way: Way,
        first: usize,
        steps: &[usize],
    ) -> Result<(), AllocError>
        requires sound { IsSound self.old }
        requires lower { IsLower sources.old.items }
        requires within { AreWithin (length sources.old.items) self.old.tasks.items }
        requires first_below { first < length sources.old.items }
        requires steps_below { AllBelow (length sources.old.items) steps.now }
        ensures { OnOk result (HasLooked sources.old.items self.old sources.new.items self.new (asks (look (thread.written_out way (form_at sources.old.items first) (map (form_at sources.old.items) steps.now)) ∷ []) (thread.refusals_of_steps (map (form_at sources.old.items) steps.now)))) }
    {
        let whole = written_out(alloc, sources, &mut self.least, way, first, steps)?;
        self.tasks.push(Task::Look(whole))?;
        Ok(())
    }

    /// Refuses a form whole, for which stands nil.
    #[tactic(auto, using(crate::proofs::LiteralLemmas::nil_written))]
    fn refuse_whole(&mut self, number: u8, place: Place) -> Result<(), AllocError>
        requires sound { IsSound self.old }
        ensures { OnOk result (HasAnswered self.old self.new (gives nil_expr (refusal number place ∷ []))) }
    {
        self.least.refuse(number, place);
        self.give(Expr::Literal(Value::Nil))
    }

    /// Puts one more expression, and makes it the last value.
    fn give(&mut self, expr: Expr) -> Result<(), AllocError>
        requires sound { IsSound self.old }
        requires below { AllBelow (length self.old.nodes.items) (parts_of expr) }
        requires written { is_writable expr ≡ true }
        ensures { OnOk result (HasGiven self.old self.new (tree_over (trees self.old) expr)) }
    {
        let number = number_of(self.nodes.len())?;
        self.nodes.push(expr)?;
        self.values.push(number)?;
        Ok(())
    }

    /// Binds a name. One that can't be bound is refused, and bound all the same.
    fn bind(&mut self, alloc: Global, sources: &[Entry], name: usize) -> Result<(), AllocError>
        requires sound { IsSound self.old }
        requires lower { IsLower sources.now }
        requires below { name < length sources.now }
        ensures { OnOk result (HasBound self.old self.new (form_at sources.now name)) }
    {
        if is_unbindable(sources, name) {
            self.least.refuse(10, place_at(sources, name));
        }
        self.locals.bind(alloc, bound_name(sources, name))
    }

    /// Binds a parameter. One that can't be bound or is bound already is refused, and bound all the same.
    pub(crate) fn bind_parameter(
        &mut self,
        alloc: Global,
        sources: &[Entry],
        name: usize,
    ) -> Result<(), AllocError>
        requires lower { IsLower sources.now }
        requires below { name < length sources.now }
        ensures { OnOk result (HasParameter self.old self.new (form_at sources.now name)) }
    {
        if self.is_no_parameter(sources, name) {
            self.least.refuse(10, place_at(sources, name));
        }
        self.locals.bind(alloc, bound_name(sources, name))
    }

    /// Whether a form can't be one more parameter: it can't be bound, or its name is bound already.
    fn is_no_parameter(&self, sources: &[Entry], form: usize) -> bool
        requires lower { IsLower sources.now }
        requires below { form < length sources.now }
        ensures { result ≡ (if scope.is_unbindable (form_at sources.now form) then true else list_any (λ name. bytes_eq name (scope.name_of (form_at sources.now form))) self.now.locals) }
    {
        if is_unbindable(sources, form) {
            return true;
        }
        self.locals.find(bound_name(sources, form)).is_some()
    }

    /// Builds an expression of the last values.
    #[tactic(auto, using(crate::proofs::LiteralLemmas::nil_written))]
    fn build(&mut self, build: Build) -> Result<(), AllocError>
        requires sound { IsSound self.old }
        requires enough { taking build ≤ length self.old.values.items }
        ensures { OnOk result (HasBuilt self.old self.new build) }
    {
        match build {
            Build::Vector(count) => self.build_vector(count),
            Build::Call(count) => self.build_call(count),
            Build::Let => self.build_let(),
            Build::If => self.build_if(),
            Build::And(count) => self.build_and(count),
            Build::Or(count) => self.build_or(count),
            Build::LazySeq => self.build_lazy_seq(),
            Build::Nil => self.give(Expr::Literal(Value::Nil)),
        }
    }

    /// Builds a vector of the last values.
    fn build_vector(&mut self, count: usize) -> Result<(), AllocError>
        requires sound { IsSound self.old }
        requires enough { count ≤ length self.old.values.items }
        ensures { OnOk result (HasBuilt self.old self.new (Build.Vector count)) }
    {
        let items = self.taken(count)?;
        self.give(Expr::Vector(Numbers::of(items)))
    }

    /// Builds a call of the last values: its head and its arguments.
    fn build_call(&mut self, count: usize) -> Result<(), AllocError>
        requires sound { IsSound self.old }
        requires enough { count + 1 ≤ length self.old.values.items }
        ensures { OnOk result (HasBuilt self.old self.new (Build.Call count)) }
    {
        let args = self.taken(count)?;
        let head = self.taken_one();
        self.give(Expr::Call {
            head,
            args: Numbers::of(args),
        })
    }

    /// Builds the end of a binding of the last values: what is bound and the body.
    fn build_let(&mut self) -> Result<(), AllocError>
        requires sound { IsSound self.old }
        requires enough { 2 ≤ length self.old.values.items }
        ensures { OnOk result (HasBuilt self.old self.new Build.Let) }
    {
        let body = self.taken_one();
        let value = self.taken_one();
        self.locals.unbind();
        self.give(Expr::Let { value, body })
    }

    /// Builds an `if` of the last values.
    fn build_if(&mut self) -> Result<(), AllocError>
        requires sound { IsSound self.old }
        requires enough { 3 ≤ length self.old.values.items }
        ensures { OnOk result (HasBuilt self.old self.new Build.If) }
    {
        let no = self.taken_one();
        let yes = self.taken_one();
        let test = self.taken_one();
        self.give(Expr::If { test, yes, no })
    }

    /// Builds an `and` of the last values.
    fn build_and(&mut self, count: usize) -> Result<(), AllocError>
        requires sound { IsSound self.old }
        requires enough { count ≤ length self.old.values.items }
        ensures { OnOk result (HasBuilt self.old self.new (Build.And count)) }
    {
        let items = self.taken(count)?;
        self.give(Expr::And(Numbers::of(items)))
    }

    /// Builds an `or` of the last values.
    fn build_or(&mut self, count: usize) -> Result<(), AllocError>
        requires sound { IsSound self.old }
        requires enough { count ≤ length self.old.values.items }
        ensures { OnOk result (HasBuilt self.old self.new (Build.Or count)) }
    {
        let items = self.taken(count)?;
        self.give(Expr::Or(Numbers::of(items)))
    }

    /// Builds a lazy part, whose body is the last value.
    fn build_lazy_seq(&mut self) -> Result<(), AllocError>
        requires sound { IsSound self.old }
        requires enough { 1 ≤ length self.old.values.items }
        ensures { OnOk result (HasBuilt self.old self.new Build.LazySeq) }
    {
        let expr = self.taken_one();
        let body = number_of(self.bodies.len())?;
        self.bodies.push(expr)?;
        self.give(Expr::LazySeq { body })
    }

    /// Takes so many of the last values, in order.
    fn taken(&mut self, count: usize) -> Result<Vec<u32>, AllocError>
        requires { count ≤ length self.old.values.items }
        ensures taken { IfOk result (λ items. Takes self.old self.new items.items) }
        ensures count { IfOk result (λ items. length items.items ≡ count) }
    {
        let kept = self.values.len() - count;
        self.values.split_off(kept)
    }

    /// Takes the last value.
    fn taken_one(&mut self) -> u32
        requires { 1 ≤ length self.old.values.items }
        ensures { Takes self.old self.new (result ∷ []) }
    {
        match self.values.pop() {
            Some(number) => number,
            None => unreachable!(),
        }
    }
}

/// Whether a form can't be bound: it is no symbol, or its name may not be bound.
fn is_unbindable(sources: &[Entry], form: usize) -> bool
    requires lower { IsLower sources.now }
    requires below { form < length sources.now }
    ensures { result ≡ scope.is_unbindable (form_at sources.now form) }
{
    match symbol(sources, form) {
        Some(name) => is_unfit(name),
        None => true,
    }
}

/// The name that a form binds: none where it is no symbol.
fn bound_name(sources: &[Entry], form: usize) -> &[u8]
    requires lower { IsLower sources.now }
    requires below { form < length sources.now }
    ensures { result.now ≡ scope.name_of (form_at sources.now form) }
{
    match symbol(sources, form) {
        Some(name) => name,
        None => b"",
    }
}

/// What a list asks for.
fn reading_at<'a>(
    alloc: Global,
    sources: &'a [Entry],
    form: usize,
) -> Result<Reading<'a>, AllocError>
    requires lower { IsLower sources.now }
    requires below { form < length sources.now }
    requires list { is_some (in_round (form_at sources.now form)) ≡ true }
    ensures read { IfOk result (λ r. (items : List Source) → in_round (form_at sources.now form) ≡ Some items → as_read sources.now r ≡ spec.reading items) }
    ensures below { IfOk result (λ r. AllBelow (length sources.now) (numbers_in r)) }
{
    let Some(items) = list(sources, form) else {
        unreachable!();
    };
    read(alloc, sources, items)
}
