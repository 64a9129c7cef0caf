//! Laws of the calls of a node. The functions do nothing: their contracts are the laws.

ghost use Rattle.std.specs.Prelude.{◌≡◌, ◌≤◌, ◌<◌, ℕ, false, List, length};
ghost use Rattle.mig_base.specs.declared.TheConstants.{MAX_RUN};
ghost use Rattle.mig_model.specs.SourceSteps.{run_bound};
ghost use Rattle.mig_laws.specs.Sides.{Line, destination_after, source_after};
ghost use Rattle.mig_laws.specs.Drivers.{entered};
ghost use Rattle.mig_laws.specs.Worlds.{IsWholeFrame};
ghost use Rattle.mig_model.specs.Wire.Frame.{Page, Run, Zero};
ghost use Rattle.nodes.specs.DestinationCalls.{AFrame, Handed, Says, ZeroRun, zeros_taken};
ghost use Rattle.nodes.specs.Lines.{AreDestinationLines, AreSourceLines, frame_said};
ghost use Rattle.nodes.specs.Nodes.{PostingDestination, PostingSource};
ghost use Rattle.nodes.specs.SourceCalls.{answer};
ghost use Rattle.nodes.specs.declared.steps.SourceStep as steps;

/// Bytes say at most one thing: they are the text of one frame, or the head of one Page or of one Run.
pub fn bytes_say_one_thing()
    ensures { (bytes : List ℕ) (one other : Handed) → Says bytes one → Says bytes other →
        one ≡ other }
{}

/// A run of any number of pages is the run of that number within the bound that its line has: the same answer of the source.
pub fn a_run_has_a_bound()
    ensures some { (most : ℕ) → 0 < run_bound most }
    ensures few { (most : ℕ) → run_bound most ≤ MAX_RUN }
    ensures same { (most : ℕ) (old : PostingSource) →
        answer (steps.SourceStep.RunSent (run_bound most)) old ≡
        answer (steps.SourceStep.RunSent most) old }
{}

/// A Run of which memory ran out, and the first pages are kept, may be handed in again: a destination that has not run is then as after one
/// taking of all its pages. (One that has run takes no Run.)
pub fn a_run_may_be_taken_again()
    ensures { (old : PostingDestination) (epoch first few count : ℕ) → old.node.has_run ≡ false →
        few ≤ count →
        zeros_taken (zeros_taken old epoch first few) epoch first count ≡
        zeros_taken old epoch first count }
{}

/// A head is taken as its frame is entered at a node without bytes, by [`mig_laws::drivers`]: a page is one of zeros, and so is each page of a
/// run.
pub fn a_head_is_its_frame_without_bytes()
    ensures page { (epoch page : ℕ) (bytes : List ℕ) →
        entered (Line.Took (record { epoch = epoch; frame = Page page bytes })) ≡
        Line.Took (frame_said (AFrame (record { epoch = epoch; frame = Zero page }))) }
    ensures run { (epoch first : ℕ) (pages : List (List ℕ)) → IsWholeFrame (Run first pages) →
        entered (Line.Took (record { epoch = epoch; frame = Run first pages })) ≡
        Line.Took (frame_said (ZeroRun epoch first (length pages))) }
{}

/// Calls that are accepted in turn are a log: the node is what its lines leave. `mig_laws::sides` says what two such logs are.
pub fn calls_are_a_log()
    ensures source { (old new : PostingSource) (lines : List Line) →
        AreSourceLines old lines new → new.node ≡ source_after old.node lines }
    ensures destination { (old new : PostingDestination) (lines : List Line) →
        AreDestinationLines old lines new → new.node ≡ destination_after old.node lines }
{}
