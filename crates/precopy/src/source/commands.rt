//! The guest at the source: commands of its processors.

ghost use Rattle.std.specs.Prelude.{◌≡◌, true, not, Ok, Err, option_to_list, IfOk, IfErr, OnErr};
ghost use Rattle.mig_base.specs.declared.command.Command.{Command};
ghost use Rattle.mig_model.specs.Cpus.{woken_answer};
ghost use Rattle.mig_model.specs.GuestSteps.{issue, retry, tried_with};
ghost use Rattle.mig_model.specs.NodeSteps.{IsRefusedFor};
ghost use Rattle.uffd_ioctl.specs.Spaces.{command_needs_room};

use super::Source;
use guest::Tried;
use mig_base::Command;
use mig_base::refusal::Refusal;

impl Source {
    /// Has a processor make a command. `NoCpu` if there is no such processor, `Busy` unless it is idle, `Phase` once the processors have
    /// stopped, and last `NoMemory`, only if the command needs memory.
    pub fn issue(&mut self, cpu: u8, command: Command) -> Result<Tried, Refusal>
        ensures made { IfOk result (λ tried.
            issue self.old.guest (not self.old.switched) cpu command ≡
            tried_with tried.effect (option_to_list tried.entry) self.new.guest) }
        ensures kept { self.new ≡ record self.old { guest = self.new.guest } }
        ensures refused { IfErr result (λ refusal.
            IsRefusedFor (issue self.old.guest (not self.old.switched) cpu command) refusal) }
        ensures memory { result ≡ Err Refusal.NoMemory →
            command_needs_room self.old.guest.space command ≡ true }
        ensures err { OnErr result (self.new ≡ self.old) }
    {
        self.space.is_in_order();
        let tried = guest::issue(
            &mut self.space,
            &mut self.cpus,
            cpu,
            command,
            !self.switched,
        )?;
        Ok(tried)
    }

    /// Has a processor that was woken try its load or store again. `NoCpu` if there is no such processor, `NotAsleep` if it is idle
    /// or in a map call, `NotWoken` if it still sleeps, `Phase` once the processors have stopped, and last `NoMemory`, only if the command
    /// needs memory.
    pub fn retry(&mut self, cpu: u8) -> Result<Tried, Refusal>
        ensures made { IfOk result (λ tried.
            retry self.old.guest (not self.old.switched) cpu ≡
            tried_with tried.effect (option_to_list tried.entry) self.new.guest) }
        ensures kept { self.new ≡ record self.old { guest = self.new.guest } }
        ensures refused { IfErr result (λ refusal.
            IsRefusedFor (retry self.old.guest (not self.old.switched) cpu) refusal) }
        ensures memory { (command : Command) → woken_answer self.old.guest.cpus cpu ≡ Ok command →
            result ≡ Err Refusal.NoMemory → command_needs_room self.old.guest.space command ≡ true }
        ensures err { OnErr result (self.new ≡ self.old) }
    {
        self.space.is_in_order();
        let tried = guest::retry(&mut self.space, &mut self.cpus, cpu, !self.switched)?;
        Ok(tried)
    }
}
