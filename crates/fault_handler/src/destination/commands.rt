//! The guest at the destination: commands of its processors.

ghost use Rattle.std.specs.Prelude.{◌≡◌, true, Ok, Err, option_to_list, IfOk, IfErr, OnErr};
ghost use Rattle.mig_base.specs.declared.command.Command.{Command};
ghost use Rattle.mig_model.specs.Cpus.{woken_answer};
ghost use Rattle.mig_model.specs.GuestSteps.{issue, retry, tried_with};
ghost use Rattle.mig_model.specs.NodeSteps.{IsRefusedFor};
ghost use Rattle.uffd_ioctl.specs.Spaces.{command_needs_room};

use super::Destination;
use guest::Tried;
use mig_base::Command;
use mig_base::refusal::Refusal;

impl Destination {
    /// A processor makes a command. `NoCpu` if there is no such processor, `Busy` unless it is idle, `Phase` before the destination has
    /// run, and then `NoMemory`, only if the command needs memory.
    pub fn issue(&mut self, cpu: u8, command: Command) -> Result<Tried, Refusal>
        ensures made { IfOk result (λ tried.
            issue self.old.guest self.old.has_run cpu command ≡
            tried_with tried.effect (option_to_list tried.entry) self.new.guest) }
        ensures guest_alone { self.new ≡ record self.old { guest = self.new.guest } }
        ensures refused { IfErr result (λ refusal.
            IsRefusedFor (issue self.old.guest self.old.has_run cpu command) refusal) }
        ensures memory { result ≡ Err Refusal.NoMemory →
            command_needs_room self.old.guest.space command ≡ true }
        ensures err { OnErr result (self.new ≡ self.old) }
    {
        self.space.is_in_order();
        guest::issue(&mut self.space, &mut self.cpus, cpu, command, self.has_run)
    }

    /// A processor that was woken tries its load or store again. `NoCpu` if there is no such processor, `NotAsleep` if it is idle or in a
    /// call, `NotWoken` if it still sleeps, `Phase` before the destination has run, and then `NoMemory`, only if the command needs
    /// memory.
    pub fn retry(&mut self, cpu: u8) -> Result<Tried, Refusal>
        ensures made { IfOk result (λ tried.
            retry self.old.guest self.old.has_run cpu ≡
            tried_with tried.effect (option_to_list tried.entry) self.new.guest) }
        ensures guest_alone { self.new ≡ record self.old { guest = self.new.guest } }
        ensures refused { IfErr result (λ refusal.
            IsRefusedFor (retry self.old.guest self.old.has_run cpu) refusal) }
        ensures memory { (command : Command) → woken_answer self.old.guest.cpus cpu ≡ Ok command →
            result ≡ Err Refusal.NoMemory → command_needs_room self.old.guest.space command ≡ true }
        ensures err { OnErr result (self.new ≡ self.old) }
    {
        self.space.is_in_order();
        guest::retry(&mut self.space, &mut self.cpus, cpu, self.has_run)
    }
}
