//! The processors of a node's guest, of either kind: who waits for which page, and who must be retried.

ghost use Rattle.std.specs.Prelude.{◌≡◌, ◌≢◌};
ghost use Rattle.vcpu.specs.Answers.{state_answer};
ghost use Rattle.postmig_c.specs.NodeCalls.{HasNoNode};
ghost use Rattle.postmig_c.specs.Processors.{IsProcessor, ShowsProcessor, TellsProcessors};

use crate::commands::{CommandNumbers, NO_COMMAND, command_numbers};
use crate::handle::{Content, Handle};
use crate::refusals::refusal_status;
use crate::status::{DONE, NOT_OPEN};
use mig_base::cpu_state::CpuState;
use std::alloc::Global;
use vcpu::Cpus;

/// A processor in numbers.
#[repr(C)]
#[derive(Clone, Copy)]
pub struct ProcessorNumbers {
    /// 0 idle, 1 asleep, 2 woken, 3 in a map call.
    pub state: u32,
    /// How many messages of its map call are unread.
    pub messages: u32,
    /// The load or store that it still has to make, if it sleeps or was woken; else the numbers of no command.
    pub command: CommandNumbers,
}

/// The numbers of a processor.
fn numbers_of(processor: CpuState) -> ProcessorNumbers
    ensures { IsProcessor processor result }
{
    match processor {
        CpuState::Idle => ProcessorNumbers {
            state: 0,
            messages: 0,
            command: NO_COMMAND,
        },
        CpuState::Asleep(command) => ProcessorNumbers {
            state: 1,
            messages: 0,
            command: command_numbers(command),
        },
        CpuState::Woken(command) => ProcessorNumbers {
            state: 2,
            messages: 0,
            command: command_numbers(command),
        },
        CpuState::InCall { left, .. } => ProcessorNumbers {
            state: 3,
            messages: u32::from(left),
            command: NO_COMMAND,
        },
    }
}

/// A processor, as a status.
fn show_processor(cpus: &Cpus, cpu: u8, processor: &mut ProcessorNumbers) -> u32
    ensures answer { ShowsProcessor (state_answer cpus.now cpu) result processor.new }
    ensures open { result ≢ 2 }
{
    match cpus.state(cpu) {
        Ok(state) => {
            *processor = numbers_of(state);
            DONE
        }
        Err(refusal) => refusal_status(refusal),
    }
}

/// Says what a processor of the guest does.
#[unsafe(no_mangle)]
pub extern "C" fn postmig_node_processor(
    alloc: Global,
    handle: &mut Handle,
    cpu: u8,
    processor: &mut ProcessorNumbers,
) -> u32
    ensures answer { result ≢ 2 →
        TellsProcessors handle.old.content (λ cpus.
        ShowsProcessor (state_answer cpus cpu) result processor.new) }
    ensures not_open { result ≡ 2 → HasNoNode handle.old.content }
    ensures same { handle.new.content ≡ handle.old.content }
{
    let Some(content) = handle.take(alloc) else {
        return NOT_OPEN;
    };
    let status = match &*content {
        Content::Source(node) => show_processor(node.node().node().cpus(), cpu, processor),
        Content::Destination(node) => show_processor(node.node().node().cpus(), cpu, processor),
        _ => NOT_OPEN,
    };
    *handle = Handle::of(content);
    status
}
