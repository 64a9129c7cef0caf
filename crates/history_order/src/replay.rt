//! Whether operations in this order are a run of one flat memory.

ghost use Rattle.std.specs.Prelude.{◌≡◌, ◌∷◌, [], IfOk};
ghost use Rattle.std.specs.Bool.{OnTrue};
ghost use Rattle.mig_base.specs.Flat.{IsFlatRun, IsRunFrom, memory_from, reply_of, after};
ghost use Rattle.mig_model.specs.Host.{memory};
ghost use Rattle.history.specs.Histories.{entries, entries_of as entries_by};

use crate::entry::entries_of;
use history::Operation;
use hosts::Host;
use mig_base::{Entry, NoMemory};
use std::alloc::Global;

/// Makes the command of an entry on a host. Whether it has the reply of the entry.
fn replies(host: &mut Host, entry: Entry) -> Result<bool, NoMemory>
    ensures reply { IfOk result (λ same.
        OnTrue same (entry.reply ≡ reply_of (memory host.old) entry.command)) }
    ensures memory { IfOk result (λ _. memory host.new ≡ after (memory host.old) entry.command) }
{
    let made = host.perform(entry.command)?;
    Ok(made == entry.reply)
}

/// Makes an operation on a host. Whether it returns there what it returned in its history.
fn returns(host: &mut Host, operation: &Operation) -> Result<bool, NoMemory>
    ensures run { IfOk result (λ same. OnTrue same (IsRunFrom (memory host.old)
        (entries_by operation.now.thread operation.now.action))) }
    ensures memory { IfOk result (λ same. OnTrue same (memory host.new ≡
        memory_from (memory host.old) (entries_by operation.now.thread operation.now.action))) }
{
    let (first, second) = entries_of(operation);
    if !replies(host, first)? {
        return Ok(false);
    }
    match second {
        Some(second) => replies(host, second),
        None => Ok(true),
    }
}

/// Whether operations that are made in turn return what they returned in their history, on one flat memory in which nothing is mapped at
/// first. `NoMemory` comes as from [`Host::perform`].
pub(crate) fn is_flat(alloc: Global, operations: &[Operation]) -> Result<bool, NoMemory>
    ensures { IfOk result (λ flat. OnTrue flat (IsFlatRun (entries operations.now))) }
{
    let mut host = Host::new(alloc);
    for operation in operations {
        let same = returns(&mut host, operation)?;
        if !same {
            return Ok(false);
        }
    }
    Ok(true)
}
