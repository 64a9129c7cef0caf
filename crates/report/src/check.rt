//! Checking that entries are a run of one flat memory.

ghost use Rattle.std.specs.Prelude.{◌≡◌, OnOk, IfErr};
ghost use Rattle.mig_base.specs.Flat.{IsFlatRun, no_memory};
ghost use Rattle.mig_model.specs.Host.{memory};
ghost use Rattle.report.specs.Checks.{IsFaultOf};

use hosts::Host;
use mig_base::{Entry, Reply};
use std::alloc::Global;
use thiserror::Error;

/// Why a check fails.
#[derive(Clone, Copy, Debug, PartialEq, Eq, Error)]
pub enum CheckFault {
    /// The entry at this index, counted from 0, is the first whose reply is wrong: one flat memory answers `expected`.
    #[error("entry {index}: one flat memory answers otherwise")]
    Wrong { index: usize, expected: Reply },
    /// An allocation failed, at an entry whose command may need memory; those before it are right. The same check may succeed later.
    #[error("no memory")]
    NoMemory,
}

/// Replays entries on one flat memory, kept in pages: it takes memory only for the areas and for the pages that are stored to, so
/// `NoMemory` comes only at a store that is made to a page of zeros, or at an mmap, munmap or mremap that is not refused. The processors
/// of the entries do not matter.
pub fn check(alloc: Global, entries: &[Entry]) -> Result<(), CheckFault>
    ensures ok { OnOk result (IsFlatRun entries.now) }
    ensures wrong { IfErr result (λ fault. IsFaultOf entries.now fault) }
{
    let mut host = Host::new(alloc);
    replay(&mut host, entries)
}

/// Replays entries on a host on which nothing is mapped.
fn replay(host: &mut Host, entries: &[Entry]) -> Result<(), CheckFault>
    requires { memory host.old ≡ no_memory }
    ensures ok { OnOk result (IsFlatRun entries.now) }
    ensures wrong { IfErr result (λ fault. IsFaultOf entries.now fault) }
{
    for (index, entry) in entries.iter().enumerate() {
        let Ok(expected) = host.perform(entry.command) else {
            return Err(CheckFault::NoMemory);
        };
        if entry.reply != expected {
            return Err(CheckFault::Wrong { index, expected });
        }
    }
    Ok(())
}
