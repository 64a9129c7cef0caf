//! Seats, which keep the answers of one processor.

ghost use Rattle.std.specs.Prelude.{◌≡◌, ◌<◌};
ghost use Rattle.mig_base.specs.declared.TheConstants.{MAX_CPUS};

use mig_base::{Command, Reply};
use std::marker::Model;

/// A command and the reply to it.
#[derive(Clone, Copy, Debug, PartialEq, Eq)]
pub struct Answer {
    pub command: Command,
    pub reply: Reply,
}

/// The right to make calls as one processor, with the answers to them.
#[derive(Drop)]
pub struct CpuSeat {
    pub(crate) cpu: u8,
    pub(crate) answers: Vec<Answer>,
}

impl Model for CpuSeat {
    ghost use Rattle.std.specs.Prelude.{◌<◌};
    ghost use Rattle.mig_base.specs.declared.TheConstants.{MAX_CPUS};
    ghost use Rattle.rig.specs.Seats.{Seat};

    ghost Value = { Seat };

    ghost view = { λ s. record { cpu = s.cpu; answers = s.answers.items } };

    ghost invariant = { λ s. s.cpu < MAX_CPUS };
}

impl CpuSeat {
    /// The processor's number.
    pub fn cpu(&self) -> u8
        ensures cpu { result ≡ self.now.cpu }
        ensures few { result < MAX_CPUS }
    {
        self.cpu
    }

    /// The answers of [`Rig::call`](crate::Rig::call) and [`Rig::finish`](crate::Rig::finish), in order.
    pub fn answers(&self) -> &[Answer]
        ensures { result.now ≡ self.now.answers }
    {
        &self.answers
    }
}
