//! A law of what is written. The function does nothing: its contract is the law.

ghost use Rattle.std.specs.Prelude.{◌++◌, ℕ, List};
ghost use Rattle.mig_model.specs.Promises.{IsComplete};
ghost use Rattle.mig_model.specs.Migration.{World};
ghost use Rattle.finishing.specs.Finished.{IsEnded, LeadsTo, Completes};

/// The script with the lines after it is a script, if its last line has a line feed, and its run ends with a complete migration.
pub fn a_finished_script()
    ensures { (start world : World) (input text : List ℕ) → IsEnded input →
        LeadsTo start input world → Completes world text
        → (end : World) × LeadsTo start (input ++ text) end × IsComplete end }
{}
