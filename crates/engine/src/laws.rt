//! Laws of the meaning of scripts and transcripts. The functions do nothing: their contracts are the laws.

ghost use Rattle.std.specs.Prelude.{◌≡◌, ℕ, List};
ghost use Rattle.mig_base.specs.Flat.{IsFlatRun};
ghost use Rattle.grammar.specs.declared.line.Line.{Line};
ghost use Rattle.engine.specs.declared.line_runner.Mode.{Mode};
ghost use Rattle.engine.specs.declared.line_runner.Mode.TheVariants.{Transcript};
ghost use Rattle.engine.specs.Script.{entry_lines, Runs};
ghost use Rattle.mig_model.specs.Migration.{World, first_world};

/// Lines have one output in each mode, and lead to one state.
pub fn one_output()
    ensures { (mode : Mode) (start : World) (lines : List Line) (s t : World) (a b : List ℕ) →
        Runs mode start lines s a → Runs mode start lines t b → (s ≡ t) × (a ≡ b) }
{}

/// The output of a run in mode Transcript is the whole transcript of the world, from its first entry to its last, and that is a run of
/// one flat memory.
pub fn transcript_of_a_run()
    ensures text { (cpus : ℕ) (lines : List Line) (end : World) (text : List ℕ) →
        Runs Transcript (first_world cpus) lines end text → text ≡ entry_lines end.transcript }
    ensures flat { (cpus : ℕ) (lines : List Line) (end : World) (text : List ℕ) →
        Runs Transcript (first_world cpus) lines end text → IsFlatRun end.transcript }
{}
