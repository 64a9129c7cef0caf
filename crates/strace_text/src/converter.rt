//! What the calls of a trace become, by what was seen before them.

mod descriptors;
mod ioctls;
mod known;
mod maps;
mod objects;
mod processes;
mod reads;
mod sockets;

use crate::converter::known::Known;
use crate::converter::sockets::Sent;
use crate::files::Files;
use crate::kind::Kind;
use crate::log::LogText;
use crate::number::OBJECT;
use crate::plan::Plan;
use crate::stop::{Stop, refuse_bytes};
use crate::text::has;
use crate::traced::Traced;
use foundation::NoMemory;
use indexmap::{IndexMap, IndexSet};
use std::alloc::Global;

/// How a thread was made.
#[derive(Clone, Copy)]
struct Maker {
    by: u64,
    is_thread: bool,
    shares_files: bool,
    shares_memory: bool,
}

/// A range of addresses.
#[derive(Clone, Copy, PartialEq, Eq, Hash)]
struct Range {
    start: u64,
    length: u64,
}

/// What is known at a line of a trace.
#[derive(Drop)]
pub(crate) struct Converter {
    alloc: Global,
    pub(crate) log: LogText,
    of_thread: IndexMap<u64, u64>,
    /// The set of descriptors of each process. Processes may share one.
    files: IndexMap<u64, usize>,
    sets: Vec<Files>,
    /// What the log has said of each process.
    known: IndexMap<u64, Known>,
    parents: IndexMap<u64, u64>,
    last_object: u64,
    last_memory: u64,
    /// The memory with which each object was opened.
    memories: IndexMap<u64, u64>,
    made: IndexMap<u64, Maker>,
    /// What was registered, or moved from there, in the whole trace.
    ranges: IndexSet<Range>,
    /// The messages that were sent with objects, and are not received yet, in their order.
    sent: Vec<Sent>,
}

impl Converter {
    /// One that has seen no call.
    pub(crate) fn new(alloc: Global) -> Result<Converter, NoMemory> {
        Ok(Converter {
            alloc,
            log: LogText::new(alloc)?,
            of_thread: IndexMap::new(alloc),
            files: IndexMap::new(alloc),
            sets: Vec::new(alloc),
            known: IndexMap::new(alloc),
            parents: IndexMap::new(alloc),
            last_object: 0,
            last_memory: 0,
            memories: IndexMap::new(alloc),
            made: IndexMap::new(alloc),
            ranges: IndexSet::new(alloc),
            sent: Vec::new(alloc),
        })
    }

    /// Adds a line of a thread to the log.
    pub(crate) fn write(&mut self, time: u64, thread: u64, said: &str) -> Result<(), Stop> {
        let process = self.process_of(thread)?;
        self.log.write(time, process, thread, said)?;
        Ok(())
    }

    /// Adds what a call that entered becomes: more than one plan where several objects are concerned.
    pub(crate) fn begin(&mut self, call: &Traced, plans: &mut Vec<Plan>) -> Result<(), Stop> {
        match call.kind {
            Kind::Poll => self.plan_poll(call, plans),
            Kind::CloseRange => self.plan_close_range(call, plans),
            _ => {
                if let Some(plan) = self.plan_of(call)? {
                    plans.push(plan)?;
                }
                Ok(())
            }
        }
    }

    /// What a call becomes that concerns one object at most.
    fn plan_of(&mut self, call: &Traced) -> Result<Option<Plan>, Stop> {
        match call.kind {
            Kind::Userfaultfd => self.plan_userfaultfd(call),
            Kind::Ioctl => self.plan_ioctl(call),
            Kind::Read => self.plan_read(call),
            Kind::Readv => self.plan_readv(call),
            Kind::Mmap => self.plan_mmap(call),
            Kind::Munmap => self.plan_munmap(call),
            Kind::Madvise => self.plan_madvise(call),
            Kind::Mremap => self.plan_mremap(call),
            Kind::Fork => self.plan_fork(call),
            Kind::Execve => self.plan_execve(call),
            _ => self.plan_of_descriptor(call),
        }
    }

    /// The same of a call that changes descriptors, or of one that is none of the language.
    fn plan_of_descriptor(&mut self, call: &Traced) -> Result<Option<Plan>, Stop> {
        match call.kind {
            Kind::Close => self.plan_close(call),
            Kind::Dup => self.plan_dup(call),
            Kind::Dup2 => self.plan_dup2(call),
            Kind::Dup3 => self.plan_dup3(call),
            Kind::Fcntl => self.plan_fcntl(call),
            Kind::PidfdGetfd => self.plan_pidfd_getfd(call),
            Kind::Sendmsg => self.plan_sendmsg(call),
            Kind::Recvmsg => self.plan_recvmsg(call),
            Kind::Vfork | Kind::Other if has(&call.arguments, OBJECT) => {
                let wrong = "of a userfault object is no call of a log";
                Err(refuse_bytes(self.alloc, &call.name, wrong))
            }
            _ => Ok(None),
        }
    }
}
