//! The gate, which decides the turns of the workers.

ghost use Rattle.std.specs.Prelude.{◌≡◌};

use mig_base::schedule::Step;

/// A thread that makes steps of its own accord.
#[derive(Clone, Copy, Debug, PartialEq, Eq)]
pub enum Worker {
    /// The source's handler, its sender, and the wire back.
    Source,
    /// The destination's handler, and both wires to it.
    Dest,
    /// Serves the requests of the destination.
    Serve,
    /// Pushes the owed pages.
    Push,
}

/// A step without its fields.
#[derive(Clone, Copy, Debug, PartialEq, Eq)]
pub enum StepKind {
    Issue,
    Retry,
    Start,
    Round,
    Send,
    SendRun,
    SourceRead,
    SourceAct,
    Switch,
    Deliver,
    DeliverBack,
    DestRead,
    DestAct,
    Install,
    Push,
    PushUrgent,
    DeliverUrgent,
    Serve,
    End,
    Break,
    Notice,
    Resume,
}

/// What a worker does in its turn.
#[derive(Clone, Copy, Debug, PartialEq, Eq)]
pub enum Pass {
    /// It makes the step.
    Go,
    /// It continues with the next turn.
    Skip,
    /// It ends.
    Stop,
}

/// Decides what the workers do in their turns.
pub trait Gate {
    ghost use Rattle.rig.specs.Turns.{Asks};

    /// A worker asks this before each turn, while the lock is free: whether it may make a step of the kind that is next in its table, or,
    /// if it sends owed pages, of a kind that it makes. Its turns are counted from 0.
    fn pass(&self, who: Worker, next: StepKind, turn: u64) -> Pass
        requires asks { Asks who turn next };
}

impl StepKind {
    ghost use Rattle.rig.specs.Turns.{kind_of};

    /// The kind of a step.
    pub fn of(step: Step) -> StepKind
        ensures { result ≡ kind_of step }
    {
        match step {
            Step::Issue { .. } => StepKind::Issue,
            Step::Retry { .. } => StepKind::Retry,
            Step::Start => StepKind::Start,
            Step::Round => StepKind::Round,
            Step::Send => StepKind::Send,
            Step::SendRun { .. } => StepKind::SendRun,
            Step::SourceRead => StepKind::SourceRead,
            Step::SourceAct => StepKind::SourceAct,
            Step::Switch => StepKind::Switch,
            Step::Deliver { .. } => StepKind::Deliver,
            Step::DeliverBack { .. } => StepKind::DeliverBack,
            Step::DestRead => StepKind::DestRead,
            Step::DestAct => StepKind::DestAct,
            Step::Install => StepKind::Install,
            Step::Push(_) => StepKind::Push,
            Step::PushUrgent(_) => StepKind::PushUrgent,
            Step::DeliverUrgent { .. } => StepKind::DeliverUrgent,
            Step::Serve => StepKind::Serve,
            Step::End => StepKind::End,
            Step::Break => StepKind::Break,
            Step::Notice(_) => StepKind::Notice,
            Step::Resume => StepKind::Resume,
        }
    }
}
