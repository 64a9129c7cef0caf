//! The two calls for commands: one begins a command, the other tries it again.

ghost use Rattle.std.specs.Prelude.{◌≡◌, true, Ok, Err, option_to_list, IfOk, IfErr, OnErr};
ghost use Rattle.mig_base.specs.declared.command.Command.{Command};
ghost use Rattle.mig_model.specs.Cpus.{woken_answer};
ghost use Rattle.mig_model.specs.GuestSteps as machine;
ghost use Rattle.mig_model.specs.GuestSteps.{tried_with};
ghost use Rattle.mig_model.specs.NodeSteps.{IsRefusedFor};
ghost use Rattle.uffd_ioctl.specs.Spaces.{command_needs_room};
ghost use Rattle.guest.specs.Guests.{guest_with};

use crate::took::Took;
use crate::tried::Tried;
use mig_base::Command;
use mig_base::refusal::Refusal;
use uffd_ioctl::Space;
use vcpu::Cpus;

/// Has a processor make a command; `runs` says whether this node runs the processors. `NoCpu` if there is no such processor, `Busy`
/// unless it is idle, `Phase` unless the node runs the processors, and last `NoMemory`, only if the command needs memory. A refusal
/// changes nothing.
#[inline(always)]
pub fn issue(
    space: &mut Space,
    cpus: &mut Cpus,
    cpu: u8,
    command: Command,
    runs: bool,
) -> Result<Tried, Refusal>
    ensures made { IfOk result (λ tried.
        machine.issue (guest_with space.old cpus.old) runs cpu command ≡
        tried_with tried.effect (option_to_list tried.entry) (guest_with space.new cpus.new)) }
    ensures refused { IfErr result (λ refusal.
        IsRefusedFor (machine.issue (guest_with space.old cpus.old) runs cpu command) refusal) }
    ensures memory { result ≡ Err Refusal.NoMemory → command_needs_room space.old command ≡ true }
    ensures err { OnErr result ((space.new ≡ space.old) × (cpus.new ≡ cpus.old)) }
{
    cpus.ensure_idle(cpu)?;
    if !runs {
        return Err(Refusal::Phase);
    }
    let Ok(took) = Took::of(space, cpu, command) else {
        return Err(Refusal::NoMemory);
    };
    Ok(took.begin(cpus, cpu, command))
}

/// Has a processor that was woken try its load or store again; `runs` says whether this node runs the processors. `NoCpu` if there is
/// no such processor, `NotAsleep` if it is idle or in a map call, `NotWoken` if it still sleeps, `Phase` unless the node runs the
/// processors, and last `NoMemory`, only if the command needs memory. A refusal changes nothing.
#[inline(always)]
pub fn retry(space: &mut Space, cpus: &mut Cpus, cpu: u8, runs: bool) -> Result<Tried, Refusal>
    ensures made { IfOk result (λ tried.
        machine.retry (guest_with space.old cpus.old) runs cpu ≡
        tried_with tried.effect (option_to_list tried.entry) (guest_with space.new cpus.new)) }
    ensures refused { IfErr result (λ refusal.
        IsRefusedFor (machine.retry (guest_with space.old cpus.old) runs cpu) refusal) }
    ensures memory { (command : Command) → woken_answer cpus.old cpu ≡ Ok command →
        result ≡ Err Refusal.NoMemory → command_needs_room space.old command ≡ true }
    ensures err { OnErr result ((space.new ≡ space.old) × (cpus.new ≡ cpus.old)) }
{
    let command = cpus.woken(cpu)?;
    if !runs {
        return Err(Refusal::Phase);
    }
    let Ok(took) = Took::of(space, cpu, command) else {
        return Err(Refusal::NoMemory);
    };
    cpus.go_idle(cpu);
    Ok(took.begin(cpus, cpu, command))
}
