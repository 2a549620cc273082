//! Laws on scripts and their forms, as functions that do nothing.
ghost use Rattle.std.specs.Prelude.{◌≡◌, ◌⊎◌, List, ℕ};
ghost use Rattle.clj_reader.specs.declared.form.Form.{Form};
ghost use Rattle.clj_reader.specs.declared.refusal.ReadRefusal.{ReadRefusal};
ghost use Rattle.clj_reader.specs.Scripts.{IsScript, IsRefused};

/// Bytes are the script of at most one list of forms: every text has one reading.
pub fn one_reading()
    ensures { (bytes : List ℕ) (forms others : List Form) →
        IsScript bytes forms → IsScript bytes others → forms ≡ others }
{}

/// Bytes have at most one refusal, and none where they are a script.
pub fn one_refusal()
    ensures one { (bytes : List ℕ) (r other : ReadRefusal) →
        IsRefused bytes r → IsRefused bytes other → r ≡ other }
    ensures never_both { (bytes : List ℕ) (forms : List Form) (r : ReadRefusal) →
        IsScript bytes forms → IsRefused bytes r → ⊥ }
{}

/// All bytes are a script or refused.
pub fn script_or_refused()
    ensures { (bytes : List ℕ) →
        ((forms : List Form) × IsScript bytes forms) ⊎ ((r : ReadRefusal) × IsRefused bytes r) }
{}
