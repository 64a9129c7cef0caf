//! How a test ends.

/// Whether the outputs of lines are their answers.
#[derive(Clone, Copy, Debug, PartialEq, Eq)]
pub enum Outcome {
    /// Each answer is the output of its line.
    Same,
    /// One is not.
    Differs,
}

/// How a test ends that has no fault.
#[derive(Clone, Copy)]
pub struct Tested {
    pub outcome: Outcome,
    /// How many answers were compared, with the one that differs.
    pub answers: u64,
}
