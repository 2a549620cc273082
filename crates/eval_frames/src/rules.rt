use crate::state::ProperTerm;
use seq_turns::{Next, Proper, ProperList, Rule};
use seq_values::{Answer, FnValue};
use seq_vector::NoMemory;
use std::alloc::Global;

/// The rules of a language, run by turns.
pub trait Rules: Rule {
    ghost use Rattle.std.specs.Prelude.{◌≡◌, ℕ, List, true, IfOk, IsTrue};
    ghost use Rattle.seq_plan.specs.Plan.{Loop, begun};
    ghost use Rattle.seq_plan.specs.Plan as plan;
    ghost use Rattle.seq_plan.specs.Turns.{told};
    ghost use Rattle.seq_turns.specs.Turning.{Fits, Takes};
    ghost use Rattle.seq_values.specs.Model as M;
    ghost use Rattle.seq_values.specs.Plain.{plain, plains};
    ghost use Rattle.seq_values.specs.WellFormed.{is_well_formed_function};
    ghost use Rattle.seq_values.specs.declared.term.Answer.TheVariants as A;

    // What the rules do, by the number of processors.
    ghost table: { ℕ → plan.Rules ℕ };

    /// The rule of a call of a function that is none of the program's.
    fn begin_call(processors: u32, function: FnValue, args: ProperList) -> Self
        requires { IsTrue (is_well_formed_function function) }
        ensures left { Self.running.left result begun ≡ (table processors).on_call function.target (plains function.bound) (plains args.items) }
        ensures waits { Fits (Self.running.wait_of result) A.Begin };

    /// The rule of a part's term.
    fn begin_term(processors: u32, term: ProperTerm) -> Self
        ensures left { Self.running.left result begun ≡ (table processors).on_term term.term.op (plains term.term.args) }
        ensures waits { Fits (Self.running.wait_of result) A.Begin };

    /// The rule that prints a value.
    fn begin_print(processors: u32, value: Proper) -> Self
        ensures left { Self.running.left result begun ≡ (table processors).on_print (plain value.value) }
        ensures waits { Fits (Self.running.wait_of result) A.Begin };

    /// The next turn of a rule.
    fn turn(alloc: Global, state: Self, answer: Answer) -> Result<Next<Self>, NoMemory>
        requires { Fits (Self.running.wait_of state) answer }
        ensures { IfOk result (λ next. Takes Self.running (Self.running.left state (told answer)) next) };

    // The loops of the rules are the table's.
    ghost loops: { (processors : ℕ) (l : Loop) (xs : List (M.Value ℕ)) → Self.running.own l ≡ true → (table processors).on_loop l xs ≡ Self.running.rounds l xs };
}
