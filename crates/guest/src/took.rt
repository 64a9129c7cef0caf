//! The outcome of a command.

ghost use Rattle.std.specs.Prelude.{◌≡◌, ◌<◌, true, set, length, option_to_list, IfOk, OnOk, OnErr};
ghost use Rattle.mig_base.specs.Commands.{is_access};
ghost use Rattle.mig_base.specs.declared.cpu_state.CpuState.{CpuState};
ghost use Rattle.mig_model.specs.Cpus.{entries_of, processor_after, processor_at};
ghost use Rattle.mig_model.specs.Guest.{space_by};
ghost use Rattle.mig_model.specs.Effects.{try_effect};
ghost use Rattle.uffd_ioctl.specs.Spaces.{command_needs_room};
ghost use Rattle.guest.specs.Guests.{took_in};
ghost use Rattle.guest.specs.Outcomes.{IsOutcome, took_of};

use crate::tried::Tried;
use mig_base::effect::Effect;
use mig_base::{Access, Command, Entry, NoMemory, Reply};
use uffd_ioctl::Space;
use vcpu::Cpus;

/// The outcome of a command in the space.
#[derive(Clone, Copy)]
pub enum Took {
    /// The command is answered.
    Answer(Reply),
    /// The processor must sleep on the page of the command.
    Sleep,
    /// The map call continues until `left` messages have been read.
    Call { reply: Reply, left: u8 },
}

impl Took {
    /// Makes a command in the space. `NoMemory` only if the command needs memory; it changes nothing.
    pub fn of(space: &mut Space, cpu: u8, command: Command) -> Result<Self, NoMemory>
        ensures took { IfOk result (λ took. took_of took ≡ took_in space.old command) }
        ensures outcome { IfOk result (λ took. IsOutcome command took) }
        ensures space { OnOk result (space.new ≡
            space_by (is_access command) space.old cpu command) }
        ensures needs { OnErr result (command_needs_room space.old command ≡ true) }
        ensures err { OnErr result (space.new ≡ space.old) }
    {
        if command.is_access() {
            match space.access(cpu, command)? {
                Access::Answered(reply) => Ok(Took::Answer(reply)),
                Access::Missing | Access::Protected => Ok(Took::Sleep),
            }
        } else {
            match space.map_call(cpu, command)? {
                (reply, 0) => Ok(Took::Answer(reply)),
                (reply, left) => Ok(Took::Call { reply, left }),
            }
        }
    }

    // Inlined, because the result is large and should not be copied on its way to the transcript.
    /// Puts the processor, which is idle, into the state of this outcome: it stays idle, sleeps, or is in a map call. Returns the effect
    /// and the entry for the transcript.
    #[inline(always)]
    pub fn begin(self, cpus: &mut Cpus, cpu: u8, command: Command) -> Tried
        requires cpu { cpu < length cpus.old }
        requires idle { processor_at cpus.old cpu ≡ CpuState.Idle }
        requires outcome { IsOutcome command self }
        ensures effect { result.effect ≡ try_effect cpu (took_of self) }
        ensures entry { option_to_list result.entry ≡ entries_of cpu command (took_of self) }
        ensures cpus { cpus.new ≡ set cpus.old cpu (processor_after command (took_of self)) }
    {
        match self {
            Took::Answer(reply) => Tried {
                effect: Effect::Answered { cpu, reply },
                entry: Some(Entry {
                    cpu,
                    command,
                    reply,
                }),
            },
            Took::Sleep => {
                cpus.fall_asleep(cpu, command);
                Tried {
                    effect: Effect::Asleep { cpu },
                    entry: None,
                }
            }
            Took::Call { reply, left } => {
                cpus.enter_call(cpu, reply, left);
                Tried {
                    effect: Effect::InCall {
                        cpu,
                        messages: left,
                    },
                    entry: Some(Entry {
                        cpu,
                        command,
                        reply,
                    }),
                }
            }
        }
    }
}
