//! The calls that a step stands for.

ghost use Rattle.std.specs.Prelude.{◌≡◌, ◌+◌, ◌*◌, ◌^◌, ◌<◌, ◌++◌, OnOk};
ghost use Rattle.foundation.specs.declared.TheConstants.{PAGE_SIZE};
ghost use Rattle.page_stream.specs.Texts.{areas_of};
ghost use Rattle.host_calls.specs.Calls as listed;
ghost use Rattle.host_calls.specs.Calls.{IsWithin, areas_at};

use crate::call::Call;
use mig_base::effect::Effect;
use mig_base::flags::{EVENT_FEATURES, REGISTER_MISSING_BIT, REGISTER_WP_BIT, WRITEPROTECT_WP_BIT};
use mig_base::schedule::{Side, Step};
use mig_base::{Addr, LOW, Message, NoMemory, PAGE_SIZE, page_address};
use uffd_ioctl::Space;
use world::World;

/// The mode in which the destination registers.
const MISSING: u64 = 1 << REGISTER_MISSING_BIT;

/// The mode in which the source registers.
const MISSING_AND_WP: u64 = MISSING | (1 << REGISTER_WP_BIT);

/// The mode in which a page is protected.
const PROTECT: u64 = 1 << WRITEPROTECT_WP_BIT;

/// The node on whose host the calls of a step are made.
pub fn node_of(step: Step) -> Side
    ensures { result ≡ listed.node_of step }
{
    match step {
        Step::Deliver { .. } | Step::DestRead | Step::DestAct | Step::Install => Side::Destination,
        _ => Side::Source,
    }
}

/// Replaces the calls by those that a step with this effect stands for, in their order. The world is the one that the step has left.
pub fn list_calls(
    calls: &mut Vec<Call>,
    world: &World,
    step: Step,
    effect: Effect,
) -> Result<(), NoMemory>
    requires { IsWithin step effect }
    ensures { OnOk result (calls.new.items ≡
        listed.calls_of (areas_at (listed.node_of step) world.now) step effect) }
{
    calls.clear();
    match step {
        Step::Start | Step::Round => list_areas(calls, world.source_space(), MISSING_AND_WP),
        Step::Send => list_sent(calls, effect),
        Step::SendRun { .. } => list_run(calls, effect),
        Step::SourceRead | Step::DestRead => list_read(calls, effect),
        Step::SourceAct | Step::DestAct => list_resolved(calls, effect),
        Step::Deliver { .. } => list_taken(calls, world, effect),
        Step::Install => list_installed(calls, effect),
        Step::Push(_) | Step::PushUrgent(_) => list_pushed(calls, effect),
        _ => Ok(()),
    }
}

/// Appends the registration of each area of a space.
fn list_areas(calls: &mut Vec<Call>, space: &Space, mode: u64) -> Result<(), NoMemory>
    ensures { OnOk result (calls.new.items ≡
        calls.old.items ++ listed.registers (areas_of space.now.host.areas) mode) }
{
    let areas = space.areas()?;
    for area in areas.areas() {
        let addr = page_address(area.first);
        let len = PAGE_SIZE * u64::from(area.count);
        calls.push(Call::Register { addr, len, mode })?;
    }
    Ok(())
}

/// Appends the calls of a Send.
fn list_sent(calls: &mut Vec<Call>, effect: Effect) -> Result<(), NoMemory>
    ensures { OnOk result (calls.new.items ≡ calls.old.items ++ listed.sent_calls effect) }
{
    match effect {
        Effect::SentPage { addr } | Effect::SentZero { addr } => {
            calls.push(Call::WriteProtect {
                addr,
                len: PAGE_SIZE,
                mode: PROTECT,
            })?;
            calls.push(Call::Page { addr })?;
            Ok(())
        }
        _ => Ok(()),
    }
}

/// Appends the calls of a SendRun.
fn list_run(calls: &mut Vec<Call>, effect: Effect) -> Result<(), NoMemory>
    requires { IsWithin (Step.SendRun 0) effect }
    ensures { OnOk result (calls.new.items ≡ calls.old.items ++ listed.run_calls effect) }
{
    match effect {
        Effect::SentRun { addr, pages } => {
            calls.push(Call::WriteProtect {
                addr,
                len: PAGE_SIZE * u64::from(pages),
                mode: PROTECT,
            })?;
            list_pages(calls, addr, pages)
        }
        _ => Ok(()),
    }
}

/// Appends a read of the bytes of each of some neighbouring pages.
fn list_pages(calls: &mut Vec<Call>, addr: Addr, pages: u32) -> Result<(), NoMemory>
    requires { addr + PAGE_SIZE * pages < 2 ^ 64 }
    ensures { OnOk result (calls.new.items ≡ calls.old.items ++ listed.pages_from addr pages) }
{
    for index in 0..pages {
        let addr = addr + PAGE_SIZE * u64::from(index);
        calls.push(Call::Page { addr })?;
    }
    Ok(())
}

/// Appends the calls of a Push or PushUrgent.
fn list_pushed(calls: &mut Vec<Call>, effect: Effect) -> Result<(), NoMemory>
    ensures { OnOk result (calls.new.items ≡ calls.old.items ++ listed.pushed_calls effect) }
{
    match effect {
        Effect::SentPage { addr } | Effect::SentZero { addr } => {
            calls.push(Call::Page { addr })?;
            Ok(())
        }
        _ => Ok(()),
    }
}

/// Appends the calls of a SourceRead or DestRead.
fn list_read(calls: &mut Vec<Call>, effect: Effect) -> Result<(), NoMemory>
    ensures { OnOk result (calls.new.items ≡ calls.old.items ++ listed.read_calls effect) }
{
    match effect {
        Effect::ReadFault { .. } => {
            calls.push(Call::Read)?;
            Ok(())
        }
        Effect::ReadEvent { event } | Effect::ReadLast { event, .. } => {
            calls.push(Call::Read)?;
            list_woken(calls, event)
        }
        _ => Ok(()),
    }
}

/// Appends the wake-up that an event asks for.
fn list_woken(calls: &mut Vec<Call>, event: Message) -> Result<(), NoMemory>
    ensures { OnOk result (calls.new.items ≡ calls.old.items ++ listed.woken_calls event) }
{
    let (start, len) = match event {
        Message::Remap { from, to: _, len } => (from, len),
        Message::Remove { start, end } | Message::Unmap { start, end } => {
            (start, end.saturating_sub(start))
        }
        Message::PageFault { .. } => return Ok(()),
    };
    calls.push(range_woken(start, len))?;
    Ok(())
}

/// The wake-up of the part of a range that may be mapped: the kernel refuses a range that begins below.
fn range_woken(start: Addr, len: u64) -> Call
    ensures { result ≡ listed.range_woken start len }
{
    Call::WakeRange {
        addr: start.max(LOW),
        len: len.saturating_sub(LOW.saturating_sub(start)),
    }
}

/// Appends the calls of a SourceAct or DestAct.
fn list_resolved(calls: &mut Vec<Call>, effect: Effect) -> Result<(), NoMemory>
    ensures { OnOk result (calls.new.items ≡ calls.old.items ++ listed.resolved_calls effect) }
{
    let call = match effect {
        Effect::Unprotected { addr } => Call::WriteProtect {
            addr,
            len: PAGE_SIZE,
            mode: 0,
        },
        Effect::Zeroed { addr } => Call::ZeroPage { addr },
        Effect::Woke { addr } | Effect::Forgot { addr } => Call::Wake { addr },
        _ => return Ok(()),
    };
    calls.push(call)?;
    Ok(())
}

/// Appends the calls of a Deliver.
fn list_taken(calls: &mut Vec<Call>, world: &World, effect: Effect) -> Result<(), NoMemory>
    ensures { OnOk result (calls.new.items ≡
        calls.old.items ++ listed.taken_calls (areas_at Side.Destination world.now) effect) }
{
    match effect {
        Effect::TookPackage { .. } => {
            calls.push(Call::Open {
                features: EVENT_FEATURES,
            })?;
            list_areas(calls, world.destination_space(), MISSING)
        }
        _ => Ok(()),
    }
}

/// Appends the calls of an Install.
fn list_installed(calls: &mut Vec<Call>, effect: Effect) -> Result<(), NoMemory>
    ensures { OnOk result (calls.new.items ≡ calls.old.items ++ listed.installed_calls effect) }
{
    match effect {
        Effect::Installed { addr, .. } => {
            calls.push(Call::Copy { addr })?;
            Ok(())
        }
        _ => Ok(()),
    }
}
