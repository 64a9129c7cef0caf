//! A guest of any size: its memory is cut into slices, which migrate side by side, each by two drivers of its own. `specs/Slices.antt` has a cut
//! and what a run of the whole is, `specs/Migrations.antt` the migrations of the slices.
//!
//! Each law is a function with an empty body, whose contract is the law.
#![tactic(auto)]

ghost use Rattle.std.specs.Prelude.{◌≡◌, ℕ, true, List};
ghost use Rattle.std.specs.List.{list_all};
ghost use Rattle.mig_base.specs.Flat.{IsFlatRun};
ghost use Rattle.slice_laws.specs.Migrations.{Migrations, held, is_moved};
ghost use Rattle.slice_laws.specs.Slices.{Act, AreActs, Cut, IsCut, acts_in, is_act, joined, memories_from, memory_after, no_memories};

/// Runs of slices are a run of the whole: if what each slice sees is the run of a flat memory, then all that happened, in whatever order the
/// slices came in between each other, is a run of the guest's memory, which has each page as its slice has it. Each access has the reply and
/// the effect that one flat memory gives it, and a map call changes its slice alone.
pub fn runs_of_slices_are_a_run()
    ensures run { (cut : Cut) (acts : List Act) → IsCut cut → list_all is_act acts ≡ true →
        ((slice : ℕ) → IsFlatRun (acts_in cut slice acts)) → AreActs cut no_memories acts }
    ensures last { (cut : Cut) (acts : List Act) →
        joined cut (memories_from cut no_memories acts) ≡ memory_after cut acts }
{}

/// The headline of a guest in slices. If each slice migrates by two drivers, what the guest did is a run of its memory. Where the source of a
/// slice is released, the driver of its destination has that slice's pages of the last memory. So once all are released the destinations
/// have the guest.
pub fn slices_migrate_side_by_side()
    ensures run { (cut : Cut) (acts : List Act) → IsCut cut → list_all is_act acts ≡ true →
        Migrations cut acts → AreActs cut no_memories acts }
    ensures held { (cut : Cut) (acts : List Act) (moves : Migrations cut acts) (addr : ℕ) →
        is_moved cut acts moves addr ≡ true →
        joined cut (held cut acts moves) addr ≡ memory_after cut acts addr }
{}
