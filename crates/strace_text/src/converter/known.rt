//! What the log has said of each process, and the lines of what it does not know yet.

use super::Converter;
use crate::files::{Files, Held, On};
use crate::stop::Stop;
use std::mem;

/// What the log has said of a process.
#[derive(Drop)]
pub(super) struct Known {
    /// A number that processes which share their memory have in common.
    memory: u64,
    /// Whether it is another process's memory, which no line of the log says.
    borrows: bool,
    /// Its descriptors.
    files: Files,
}

impl Converter {
    /// The process of a thread, of which something is known from now on.
    fn met(&mut self, thread: u64) -> Result<u64, Stop> {
        let process = self.process_of(thread)?;
        if !self.known.contains_key(&process) {
            self.own_memory(process)?;
        }
        Ok(process)
    }

    /// A process has a memory of its own from now on, and no descriptor is known.
    fn own_memory(&mut self, process: u64) -> Result<(), Stop> {
        self.last_memory = self.last_memory.saturating_add(1);
        let known = Known {
            memory: self.last_memory,
            borrows: false,
            files: Files::new(self.alloc),
        };
        self.known.insert(process, known)?;
        Ok(())
    }

    /// The number of the memory of a thread.
    pub(super) fn memory_of(&mut self, thread: u64) -> Result<u64, Stop> {
        let process = self.met(thread)?;
        Ok(self.known.get(&process).map_or(0, |known| known.memory))
    }

    /// A new process shares the memory of a thread.
    pub(super) fn borrow_memory(&mut self, process: u64, thread: u64) -> Result<(), Stop> {
        let known = Known {
            memory: self.memory_of(thread)?,
            borrows: true,
            files: Files::new(self.alloc),
        };
        self.known.insert(process, known)?;
        Ok(())
    }

    /// The object that a descriptor of a process is to the log.
    fn known_object(&self, process: u64, fd: u64) -> Option<u64> {
        let held = self.known.get(&process)?.files.get(fd)?;
        Some(held.object)
    }

    fn know(&mut self, process: u64, held: Held) -> Result<(), Stop> {
        if let Some(known) = self.known.get_mut(&process) {
            known.files.put(held)?;
        }
        Ok(())
    }

    fn forget(&mut self, process: u64, fd: u64) {
        if let Some(known) = self.known.get_mut(&process) {
            known.files.remove(fd);
        }
    }

    fn say(&mut self, time: u64, thread: u64, word: &str, on: On) -> Result<(), Stop> {
        let On { object, fd } = on;
        let said = format!(in self.alloc; "{word} {object}:{fd}")?;
        self.write(time, thread, said.as_str())
    }

    /// Adds a line for what a descriptor is no longer, and for the object that it is, where the log does not know it.
    pub(super) fn tell(&mut self, time: u64, thread: u64, fd: u64) -> Result<(), Stop> {
        let process = self.met(thread)?;
        let set = self.set_of(thread)?;
        let held = self.held(set, fd);
        let before = self.known_object(process, fd);
        if held.map(|held| held.object) == before {
            return Ok(());
        }
        if let Some(object) = before {
            self.forget(process, fd);
            self.say(time, thread, "dropped", On { object, fd })?;
        }
        if let Some(held) = held {
            self.know(process, held)?;
            self.say(time, thread, "found", held.on())?;
        }
        Ok(())
    }

    /// A process has a memory of its own from now on. Adds a line for each of its descriptors.
    pub(super) fn announce(&mut self, time: u64, thread: u64) -> Result<(), Stop> {
        let process = self.process_of(thread)?;
        self.own_memory(process)?;
        let set = self.set_of(thread)?;
        for place in 0..self.count_held(set) {
            let Some(held) = self.held_at(set, place) else {
                break;
            };
            self.tell(time, thread, held.fd)?;
        }
        Ok(())
    }

    /// Before a map call of a process that shares the memory of another one: tells which objects were opened with this memory, so that a
    /// judge knows whose it is.
    pub(super) fn tell_of_borrowed_memory(&mut self, time: u64, thread: u64) -> Result<(), Stop> {
        let process = self.met(thread)?;
        let set = self.set_of(thread)?;
        let memory = match self.known.get(&process) {
            Some(known) if known.borrows => known.memory,
            _ => return Ok(()),
        };
        for place in 0..self.count_held(set) {
            let Some(held) = self.held_at(set, place) else {
                break;
            };
            if self.memories.get(&held.object) == Some(&memory) {
                self.tell(time, thread, held.fd)?;
            }
        }
        Ok(())
    }

    /// A descriptor is another object's, or nobody's, for all that share a set. The log has it no longer for the other processes.
    pub(super) fn tell_others(&mut self, time: u64, thread: u64, fd: u64) -> Result<(), Stop> {
        let own = self.process_of(thread)?;
        let set = self.set_of(thread)?;
        for place in 0..self.known.len() {
            let Some((process, known)) = self.known.get_index(place) else {
                break;
            };
            let process = *process;
            let held = known.files.get(fd);
            if process == own || self.files.get(&process) != Some(&set) {
                continue;
            }
            if let Some(held) = held {
                self.forget(process, fd);
                self.say(time, process, "dropped", held.on())?;
            }
        }
        Ok(())
    }

    /// A call has made descriptors, as its end line says.
    pub(super) fn bind(
        &mut self,
        time: u64,
        thread: u64,
        set: usize,
        made: &[Held],
    ) -> Result<(), Stop> {
        let process = self.met(thread)?;
        for held in made {
            self.put(set, *held)?;
            self.know(process, *held)?;
        }
        for held in made {
            self.tell_others(time, thread, held.fd)?;
        }
        Ok(())
    }

    /// The end of a close was written.
    pub(super) fn release(&mut self, thread: u64, set: usize, on: On) -> Result<(), Stop> {
        // Another thread may have been given the number before this line.
        if self.is_held(set, on) {
            self.remove(set, on.fd);
        }
        let process = self.met(thread)?;
        if self.known_object(process, on.fd) == Some(on.object) {
            self.forget(process, on.fd);
        }
        Ok(())
    }

    /// A process has ended. Adds a line for each descriptor that it had.
    pub(crate) fn drop_all(&mut self, time: u64, thread: u64) -> Result<(), Stop> {
        let process = self.met(thread)?;
        let Some(known) = self.known.get_mut(&process) else {
            return Ok(());
        };
        let files = mem::replace(&mut known.files, Files::new(self.alloc));
        for held in &files.held {
            self.say(time, thread, "dropped", held.on())?;
        }
        Ok(())
    }
}
