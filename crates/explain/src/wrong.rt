//! The entries that are wrong.

ghost use Rattle.std.specs.Prelude.{◌≡◌, IfOk};
ghost use Rattle.mig_base.specs.Flat.{no_memory};
ghost use Rattle.mig_model.specs.Host.{memory};
ghost use Rattle.explain.specs.Explaining.{AreWrong};

use hosts::Host;
use mig_base::{Entry, NoMemory, Reply};
use std::alloc::Global;

/// An entry with another reply than the flat memory's.
#[derive(Clone, Copy)]
pub struct WrongReply {
    /// Counted from 0.
    pub index: usize,
    /// The reply of the flat memory.
    pub expected: Reply,
}

/// Replays entries on one flat memory, and lists all that are wrong, in order. The flat memory continues from its own reply.
pub fn wrong_entries(alloc: Global, entries: &[Entry]) -> Result<Vec<WrongReply>, NoMemory>
    ensures { IfOk result (λ wrongs. AreWrong no_memory 0 entries.now wrongs.items) }
{
    let mut host = Host::new(alloc);
    replay(alloc, &mut host, entries)
}

/// Replays entries on a host on which nothing is mapped.
fn replay(alloc: Global, host: &mut Host, entries: &[Entry]) -> Result<Vec<WrongReply>, NoMemory>
    requires { memory host.old ≡ no_memory }
    ensures { IfOk result (λ wrongs. AreWrong no_memory 0 entries.now wrongs.items) }
{
    let mut wrongs = Vec::new(alloc);
    for (index, entry) in entries.iter().enumerate() {
        let expected = host.perform(entry.command)?;
        if entry.reply != expected {
            wrongs.push(WrongReply { index, expected })?;
        }
    }
    Ok(wrongs)
}
