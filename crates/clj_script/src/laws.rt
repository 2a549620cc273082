//! Laws of what forms mean.
ghost use Rattle.std.specs.Prelude.{◌≡◌, ◌⊎◌, ◌++◌, ℕ, true, List, []};
ghost use Rattle.clj_reader.specs.declared.form.Form.{Form};
ghost use Rattle.clj_reader.specs.declared.refusal.ReadRefusal.{ReadRefusal};
ghost use Rattle.clj_reader.specs.Scripts.{IsScript, IsRefused};
ghost use Rattle.clj_script.specs.declared.refusal.ScriptRefusal.{ScriptRefusal};
ghost use Rattle.clj_script.specs.Trees as tree;
ghost use Rattle.seq_values.specs.declared.value.Value.{Value};
ghost use Rattle.seq_values.specs.WellFormed.{is_well_formed};
ghost use Rattle.clj_script.specs.Literals.{is_written};
ghost use Rattle.clj_script.specs.Closed.{functions_in, IsDefIn, IsClosed, IsClosedProgram};
ghost use Rattle.clj_script.specs.Scripts.{Means};
ghost use Rattle.clj_script.specs.Seen.{IsRefusal};

use clj_reader::script_or_refused;

/// Forms mean at most one program, and one list is refused of them.
pub fn one_meaning()
    ensures { (forms : List Form) (p q : tree.Program) (rs ss : List ScriptRefusal) → Means forms p rs → Means forms q ss → (p ≡ q) × (rs ≡ ss) }
{}

/// All forms mean a program, with what is refused of them.
pub fn some_meaning()
    ensures { (forms : List Form) → (program : tree.Program) × (refusals : List ScriptRefusal) × Means forms program refusals }
{}

/// Every text is refused as it is read, or its forms are refused, or they mean a program.
pub fn refused_or_meant()
    ensures { (bytes : List ℕ) →
        ((r : ReadRefusal) × IsRefused bytes r)
        ⊎ ((forms : List Form) × IsScript bytes forms
        × (((r : ScriptRefusal) × IsRefusal forms r) ⊎ ((program : tree.Program) × Means forms program []))) }
{
    script_or_refused();
}

/// What forms mean names only what is there.
pub fn meaning_is_closed()
    ensures { (forms : List Form) (program : tree.Program) (refusals : List ScriptRefusal) → Means forms program refusals → IsClosedProgram program }
{}

/// What names only what is there behind some forms does so behind more forms, and with more bodies of `lazy-seq`s.
pub fn closed_later()
    ensures { (before after : List tree.Top) (bodies more : List tree.Expr) (n : ℕ) (e : tree.Expr) → IsClosed (functions_in before) bodies (IsDefIn before) n e → IsClosed (functions_in (before ++ after)) (bodies ++ more) (IsDefIn (before ++ after)) n e }
{}

/// A value that a script can write is well formed.
pub fn written_is_well_formed()
    ensures { (value : Value) → is_written value ≡ true → is_well_formed value ≡ true }
{}
