//! How a script is run.

use crate::line_runner::Mode;

/// How a script is run.
#[derive(Clone, Copy)]
pub struct Setup {
    /// How many processors its new world has, 1 to 16.
    pub cpus: u8,
    /// What is written for each order.
    pub mode: Mode,
}
