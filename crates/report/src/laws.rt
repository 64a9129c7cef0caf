//! Laws about checks. The functions do nothing: their contracts are the laws.

ghost use Rattle.std.specs.Prelude.{◌≡◌, ℕ, ◌<◌, List, length};
ghost use Rattle.mig_base.specs.declared.command.Entry.{Entry};
ghost use Rattle.mig_base.specs.declared.command.Reply.{Reply};
ghost use Rattle.mig_base.specs.Flat.{IsFlatRun};
ghost use Rattle.report.specs.Checks.{FirstWrong};

/// The index of a wrong entry is inside the list.
pub fn wrong_is_inside()
    ensures { (entries : List Entry) (i : ℕ) (r : Reply) → FirstWrong entries i r →
        i < length entries }
{}

/// Entries with a wrong reply are not a flat run.
pub fn wrong_is_no_flat_run()
    ensures { (entries : List Entry) (i : ℕ) (r : Reply) → FirstWrong entries i r →
        IsFlatRun entries → ⊥ }
{}

/// A list of entries has at most one first wrong entry, with one expected reply.
pub fn one_first_wrong()
    ensures { (entries : List Entry) (i j : ℕ) (r s : Reply) → FirstWrong entries i r →
        FirstWrong entries j s → (i ≡ j) × (r ≡ s) }
{}
