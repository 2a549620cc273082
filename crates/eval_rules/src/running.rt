//! The rules of the language.
use crate::beginning::{called, worked};
use crate::state::{LanguageRule, State};
use crate::turning::next_of;
use eval_frames::{ProperTerm, Rules};
use seq_turns::{Next, Proper, ProperList, Rule};
use seq_values::{Answer, FnValue};
use seq_vector::NoMemory;
use std::alloc::Global;

impl Rule for LanguageRule {
    ghost use Rattle.eval_rules.specs.Left.{language_runs};

    ghost running = { language_runs };
}

impl Rules for LanguageRule {
    ghost use Rattle.std.specs.Prelude.{refl};
    ghost use Rattle.seq_table.specs.Table.{language};

    ghost table = { language };

    fn begin_call(processors: u32, function: FnValue, args: ProperList) -> LanguageRule {
        LanguageRule {
            state: called(processors, function, args),
        }
    }

    fn begin_term(_processors: u32, term: ProperTerm) -> LanguageRule {
        LanguageRule {
            state: worked(term),
        }
    }

    fn begin_print(_processors: u32, value: Proper) -> LanguageRule {
        LanguageRule {
            state: State::Print(print_rules::begin(value.value)),
        }
    }

    fn turn(
        alloc: Global,
        state: LanguageRule,
        answer: Answer,
    ) -> Result<Next<LanguageRule>, NoMemory> {
        next_of(alloc, state.state, answer)
    }

    ghost loops = { λ processors l xs own. refl };
}
