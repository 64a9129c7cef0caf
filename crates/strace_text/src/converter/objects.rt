//! Descriptors as objects: what the log knows, and what it finds.

use super::Converter;
use crate::files::{Files, Held, On};
use crate::number::{Fd, fd_at};
use crate::plan::After;
use crate::stop::Stop;
use crate::traced::Traced;

impl Converter {
    /// A new object's number.
    pub(super) fn new_object(&mut self) -> u64 {
        self.last_object = self.last_object.saturating_add(1);
        self.last_object
    }

    /// The set of descriptors of a process, which has none if it is new.
    pub(super) fn set_of_process(&mut self, process: u64) -> Result<usize, Stop> {
        if let Some(set) = self.files.get(&process) {
            return Ok(*set);
        }
        let set = self.new_set(Files::new(self.alloc))?;
        self.files.insert(process, set)?;
        Ok(set)
    }

    pub(super) fn new_set(&mut self, files: Files) -> Result<usize, Stop> {
        let set = self.sets.len();
        self.sets.push(files)?;
        Ok(set)
    }

    /// The set of descriptors of a thread.
    pub(super) fn set_of(&mut self, thread: u64) -> Result<usize, Stop> {
        let process = self.process_of(thread)?;
        self.set_of_process(process)
    }

    pub(super) fn held(&self, set: usize, fd: u64) -> Option<Held> {
        self.sets.get(set)?.get(fd)
    }

    /// How many descriptors of objects a set has.
    pub(super) fn count_held(&self, set: usize) -> usize {
        match self.sets.get(set) {
            Some(files) => files.held.len(),
            None => 0,
        }
    }

    /// The descriptor of a set at a place in their order.
    pub(super) fn held_at(&self, set: usize, place: usize) -> Option<Held> {
        self.sets.get(set)?.held.get(place).copied()
    }

    pub(super) fn put(&mut self, set: usize, held: Held) -> Result<(), Stop> {
        if let Some(files) = self.sets.get_mut(set) {
            files.put(held)?;
        }
        Ok(())
    }

    pub(super) fn remove(&mut self, set: usize, fd: u64) {
        if let Some(files) = self.sets.get_mut(set) {
            files.remove(fd);
        }
    }

    /// The object of a descriptor as strace prints it, if it is one. What the log does not know yet is found or dropped.
    pub(super) fn object_at(
        &mut self,
        time: u64,
        thread: u64,
        text: &[u8],
    ) -> Result<Option<On>, Stop> {
        let Some(found) = fd_at(self.alloc, text)? else {
            return Ok(None);
        };
        let set = self.set_of(thread)?;
        self.meet(time, thread, set, found)?;
        self.tell(time, thread, found.number)?;
        match self.held(set, found.number) {
            Some(held) => Ok(Some(held.on())),
            None => Ok(None),
        }
    }

    /// The object of the descriptor that is a call's first argument.
    pub(super) fn object_of(&mut self, call: &Traced) -> Result<Option<On>, Stop> {
        self.object_at(call.entered_at, call.thread, &call.arguments)
    }

    /// A descriptor is or is not an object's, contrary to what was seen before.
    fn meet(&mut self, time: u64, thread: u64, set: usize, found: Fd) -> Result<(), Stop> {
        let fd = found.number;
        let Some(is_object) = found.is_object else {
            return Ok(());
        };
        match self.held(set, fd) {
            None if is_object => {
                let object = self.new_object();
                let closes = false;
                self.put(set, Held { fd, object, closes })
            }
            Some(_) if !is_object => {
                self.remove(set, fd);
                self.tell_others(time, thread, fd)
            }
            _ => Ok(()),
        }
    }

    /// Whether a descriptor is this object's.
    pub(super) fn is_held(&self, set: usize, on: On) -> bool {
        self.held(set, on.fd)
            .is_some_and(|held| held.object == on.object)
    }

    /// Tells what a call that returned has changed for other processes.
    pub(crate) fn tell_of_end(&mut self, call: &Traced, after: &After) -> Result<(), Stop> {
        match *after {
            After::Release { set, on } if self.is_held(set, on) => {
                self.tell_others(call.left_at, call.thread, on.fd)
            }
            _ => Ok(()),
        }
    }

    /// Does what comes after the end of a call.
    pub(crate) fn change(&mut self, call: &Traced, after: &After) -> Result<(), Stop> {
        let time = call.left_at;
        let thread = call.thread;
        match after {
            After::Nothing => Ok(()),
            After::Bind(made) => {
                let set = self.set_of(thread)?;
                self.bind(time, thread, set, made)
            }
            After::BindIn { set, held } => self.bind(time, thread, *set, &[*held]),
            After::Release { set, on } => self.release(thread, *set, *on),
            After::Start(words) => self.start(time, thread, words.as_str()),
            After::Receive => self.receive(call),
        }
    }
}
