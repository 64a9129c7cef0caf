//! An unread message, and a queue of them.

ghost use Rattle.std.specs.Prelude.{◌≡◌, ◌↔◌, true, IfOk};
ghost use Rattle.mig_base.specs.Userfault.{is_fault_at, waits_fault};

use mig_base::{Addr, Message, NoMemory};
use std::alloc::Global;
use std::collections::VecDeque;
use std::marker::Model;

/// An unread message, and the processor that caused it.
#[derive(Clone, Copy, PartialEq, Eq)]
pub struct Noted {
    message: Message,
    cpu: u8,
}

impl Model for Noted {
    ghost use Rattle.mig_base.specs.Userfault as machine;
    ghost use Rattle.userfault.specs.Codes.{coded_noted};

    ghost Value = { machine.Noted };

    ghost coded = { coded_noted };

    ghost view = { λ n. record { message = n.message; cpu = n.cpu } };

    ghost inverse = { λ v. record { message = v.message; cpu = v.cpu } };
}

impl Noted {
    /// A message with its processor.
    pub fn new(message: Message, cpu: u8) -> Self
        ensures message { result.message ≡ message }
        ensures cpu { result.cpu ≡ cpu }
    {
        Noted { message, cpu }
    }

    /// The message.
    pub fn message(&self) -> Message
        ensures { result ≡ self.now.message }
    {
        self.message
    }

    /// The processor that caused it.
    pub fn cpu(&self) -> u8
        ensures { result ≡ self.now.cpu }
    {
        self.cpu
    }

    /// Whether it is a page fault of this kind at the address: write-protected if `wp`, else missing.
    fn is_fault_at(&self, addr: Addr, wp: bool) -> bool
        ensures { result ≡ is_fault_at self.now.message addr wp }
    {
        match self.message {
            Message::PageFault {
                addr: other,
                wp: kind,
                ..
            } => other == addr && kind == wp,
            _ => false,
        }
    }
}

/// Whether a page fault of this kind at the address is in the queue.
pub fn waits(faults: &VecDeque<Noted>, addr: Addr, wp: bool) -> bool
    ensures { result ≡ waits_fault faults.now.items addr wp }
{
    for i in 0..faults.len() {
        if faults[i].is_fault_at(addr, wp) {
            return true;
        }
    }
    false
}

/// A copy of the queue. `NoMemory` if the allocation fails.
pub fn copy_queue(alloc: Global, queue: &VecDeque<Noted>) -> Result<VecDeque<Noted>, NoMemory>
    ensures { IfOk result (λ copy. copy.items ≡ queue.now.items) }
{
    let mut copy = VecDeque::with_capacity(alloc, queue.len())?;
    for i in 0..queue.len() {
        copy.push_back(queue[i])?;
    }
    Ok(copy)
}

/// Whether two queues have equal messages, in the same order.
pub fn is_same_queue(queue: &VecDeque<Noted>, other: &VecDeque<Noted>) -> bool
    ensures { (result ≡ true) ↔ (queue.now.items ≡ other.now.items) }
{
    queue == other
}
