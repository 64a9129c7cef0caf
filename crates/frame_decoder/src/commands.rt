//! Reading what each processor waits for.

ghost use Rattle.frame_decoder.specs.Reading.{Gives, many_at, load_at, store_at, command_at, commands_at};

use crate::fault::StreamFault;
use crate::fields::{read_byte, read_u64};
use mig_base::command::{fits, is_aligned};
use mig_base::{Command, MAX_CPUS};
use std::alloc::Global;

#[tactic(auto, unfolding(crate::specs::Reading::load_at))]
fn read_load(bytes: &[u8]) -> Result<(Option<Command>, &[u8]), StreamFault>
    ensures { Gives (λ x. (x.0, x.1.now)) result (load_at bytes.now) }
{
    let (addr, rest) = read_u64(bytes)?;
    let (width, rest) = read_byte(rest)?;
    if !is_aligned(addr, width) {
        return Err(StreamFault::BadField);
    }
    Ok((Some(Command::Load { addr, width }), rest))
}

#[tactic(auto, unfolding(crate::specs::Reading::store_at))]
fn read_store(bytes: &[u8]) -> Result<(Option<Command>, &[u8]), StreamFault>
    ensures { Gives (λ x. (x.0, x.1.now)) result (store_at bytes.now) }
{
    let (addr, rest) = read_u64(bytes)?;
    let (width, rest) = read_byte(rest)?;
    let (value, rest) = read_u64(rest)?;
    if !is_aligned(addr, width) || !fits(value, width) {
        return Err(StreamFault::BadField);
    }
    Ok((Some(Command::Store { addr, width, value }), rest))
}

/// Nothing, a load or a store. A bad access is a fault.
#[tactic(auto, unfolding(crate::specs::Reading::command_at))]
fn read_command(bytes: &[u8]) -> Result<(Option<Command>, &[u8]), StreamFault>
    ensures { Gives (λ x. (x.0, x.1.now)) result (command_at bytes.now) }
{
    match bytes {
        [] => Err(StreamFault::BadField),
        [0, rest @ ..] => Ok((None, rest)),
        [1, rest @ ..] => read_load(rest),
        [2, rest @ ..] => read_store(rest),
        [_, ..] => Err(StreamFault::BadField),
    }
}

fn read_count_commands(
    alloc: Global,
    count: u8,
    bytes: &[u8],
) -> Result<(Vec<Option<Command>>, &[u8]), StreamFault>
    ensures { Gives (λ x. (x.0.items, x.1.now)) result (many_at command_at count bytes.now) }
{
    let mut items = Vec::new(alloc);
    let mut rest = bytes;
    for _ in 0..count {
        let (item, after) = read_command(rest)?;
        items.push(item)?;
        rest = after;
    }
    Ok((items, rest))
}

/// The number of processors in one byte, 1 to `MAX_CPUS`, and what each of them waits for.
#[tactic(auto, unfolding(crate::specs::Reading::commands_at))]
pub(crate) fn read_commands(
    alloc: Global,
    bytes: &[u8],
) -> Result<(Vec<Option<Command>>, &[u8]), StreamFault>
    ensures { Gives (λ x. (x.0.items, x.1.now)) result (commands_at bytes.now) }
{
    let (count, rest) = read_byte(bytes)?;
    let (items, rest) = read_count_commands(alloc, count, rest)?;
    if items.is_empty() || usize::from(MAX_CPUS) < items.len() {
        return Err(StreamFault::BadField);
    }
    Ok((items, rest))
}
