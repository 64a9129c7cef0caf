//! Commands of the guest's processors, at the node where the guest runs.

ghost use Rattle.std.specs.Prelude.{◌≡◌, ◌++◌, option_to_list};
ghost use Rattle.std.specs.Vec.{vec_capacity};
ghost use Rattle.std.specs.Prelude.{◌<◌, length};
ghost use Rattle.mig_base.specs.declared.schedule.Step.{Step};
ghost use Rattle.mig_model.specs.Runs.{Happens};
ghost use Rattle.world.specs.Worlds.{IsWorld, world_of};

use super::Parts;
use mig_base::effect::Effect;
use mig_base::refusal::Refusal;
use mig_base::schedule::Step;
use mig_base::{Command, Entry};

impl Parts {
    /// A processor begins a command. If it takes effect, it is entered in the transcript.
    pub(super) fn issue(&mut self, cpu: u8, command: Command) -> Result<Effect, Refusal>
        requires { IsWorld (world_of self.old) }
        ensures { Happens (world_of self.old) (Step.Issue cpu command) result (world_of self.new) }
    {
        if self.transcript.try_reserve(1).is_err() {
            return Err(self.refused(Step::Issue { cpu, command }));
        }
        if self.destination.has_run() {
            let there = self.destination.issue(cpu, command)?;
            enter(&mut self.transcript, there.entry);
            return Ok(there.effect);
        }
        let tried = self.source.issue(cpu, command)?;
        enter(&mut self.transcript, tried.entry);
        Ok(tried.effect)
    }

    /// A processor that was woken tries its load or store again.
    pub(super) fn retry(&mut self, cpu: u8) -> Result<Effect, Refusal>
        requires { IsWorld (world_of self.old) }
        ensures { Happens (world_of self.old) (Step.Retry cpu) result (world_of self.new) }
    {
        if self.transcript.try_reserve(1).is_err() {
            return Err(self.refused(Step::Retry { cpu }));
        }
        if self.destination.has_run() {
            let there = self.destination.retry(cpu)?;
            enter(&mut self.transcript, there.entry);
            return Ok(there.effect);
        }
        let again = self.source.retry(cpu)?;
        enter(&mut self.transcript, again.entry);
        Ok(again.effect)
    }
}

/// Enters a command that took effect, if any, in a transcript that has room.
fn enter(transcript: &mut Vec<Entry>, entry: Option<Entry>)
    requires { length transcript.old.items < vec_capacity transcript.old }
    ensures { transcript.new.items ≡ transcript.old.items ++ option_to_list entry }
{
    if let Some(entry) = entry {
        transcript.push_reserved(entry);
    }
}
