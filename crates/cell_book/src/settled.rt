//! The values of the first forms, kept so that a form is begun without reading them all again.
ghost use Rattle.std.specs.Prelude.{◌≡◌, ℕ, [], ◌++◌, ◌∷◌, length, take, unwrap_or, IfOk};
ghost use Rattle.seq_values.specs.declared.value.Value.TheVariants.{Nil};
ghost use Rattle.cell_book.specs.Steps.{values_in};

use crate::cell::Form;
use seq_values::Value;
use seq_vector::{NoMemory, PVec, Share};
use std::alloc::Global;
use std::marker::Model;

/// The values of the first forms. Contracts see the list of them.
#[derive(Drop)]
pub struct Settled {
    values: PVec<Value>,
    // So many of them still stand.
    count: usize,
}

impl Model for Settled {
    ghost use Rattle.std.specs.Prelude.{List, ◌≤◌, length, take};
    ghost use Rattle.std.specs.Coded.{codes};
    ghost use Rattle.seq_values.specs.declared.value.Value.{Value as Outcome};
    ghost use Rattle.seq_values.specs.contracts.value.Value as value;

    ghost Value = { List Outcome };

    ghost coded = { Prim.hlevel (codes, value.the_row.coded) };

    ghost view = { λ s. take s.count s.values };

    ghost invariant = { λ s. s.count ≤ length s.values };
}

impl Settled {
    /// None. It takes no memory.
    pub fn new() -> Settled
        ensures { result ≡ [] }
    {
        Settled {
            values: PVec::new(),
            count: 0,
        }
    }

    /// All of these.
    #[tactic(auto, using(crate::proofs::Values::take_full))]
    pub fn of(values: PVec<Value>) -> Settled
        ensures { result ≡ values }
    {
        let count = values.len();
        Settled { values, count }
    }

    /// How many there are.
    pub fn len(&self) -> usize
        ensures { result ≡ length self.now }
    {
        self.count
    }

    /// A vector of them. Where none was forgotten it is the vector that is kept, shared: so all that keep it have one.
    #[tactic(auto, using(crate::proofs::Values::take_full))]
    pub fn values(&self, alloc: Global) -> Result<PVec<Value>, NoMemory>
        ensures { IfOk result (λ v. v ≡ self.now) }
    {
        if self.count == self.values.len() {
            return self.values.share();
        }
        match self.values.window(alloc, 0, self.count)? {
            Some(values) => Ok(values),
            None => unreachable!(),
        }
    }

    /// Those from a place on no longer stand. It takes no memory.
    #[tactic(auto, using(crate::proofs::Values::take_less, crate::proofs::Values::take_all_of))]
    pub fn forget_from(&mut self, at: usize)
        ensures { self.new ≡ take at self.old }
    {
        if at < self.count {
            self.count = at;
        }
    }
}

/// The values of all forms, where those of the first are there already.
#[tactic(auto, using(crate::proofs::Values::take_next, crate::proofs::Values::take_whole))]
pub(crate) fn outcomes_of(
    alloc: Global,
    settled: &Settled,
    forms: &[Form],
) -> Result<PVec<Value>, NoMemory>
    requires { settled.now ≡ take (length settled.now) (values_in forms.now) }
    ensures { IfOk result (λ outcomes. outcomes ≡ values_in forms.now) }
{
    let mut outcomes = settled.values(alloc)?;
    for at in settled.len()..forms.len() {
        outcomes = outcome_added(alloc, &outcomes, &forms[at])?;
    }
    Ok(outcomes)
}

/// The values with that of one more form.
fn outcome_added(
    alloc: Global,
    outcomes: &PVec<Value>,
    form: &Form,
) -> Result<PVec<Value>, NoMemory>
    ensures { IfOk result (λ more. more ≡ outcomes.now ++ unwrap_or form.now.value Nil ∷ []) }
{
    if outcomes.len() == 4294967295 {
        return Err(NoMemory);
    }
    let value = form.outcome()?;
    match outcomes.push(alloc, value) {
        Ok(more) => Ok(more),
        Err((_, why)) => Err(why),
    }
}
