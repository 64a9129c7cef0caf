//! The map calls of processors.

ghost use Rattle.std.specs.Prelude.{◌≡◌, IfOk, OnOk, OnErr, true, false};
ghost use Rattle.mig_base.specs.Flat.{reply_of, after};
ghost use Rattle.mig_model.specs.Host.{memory};
ghost use Rattle.mig_base.specs.Commands.{is_access};
ghost use Rattle.mig_model.specs.Space as machine;
ghost use Rattle.uffd_ioctl.specs.Spaces.{call_needs_room};

use super::Space;
use crate::events::{queue_if_due, remapped};
use crate::map_calls::{dontneed_reply, is_invalid, mmap_place, mremap_place, page_count};
use crate::remap::Remap;
use mig_base::{
    Addr, Command, Errno, HIGH, HIGH_PAGE, Message, NoMemory, PAGE_SIZE, PageNo, Place, Prot,
    Reply, page_address,
};

impl Space {
    /// Makes a map call of a processor, which is any command but a load or a store. Returns the reply of one flat memory, and the
    /// number of events that the call queued; the processor stays in its call until these are read. A page keeps its mode and its
    /// protection when it moves, and the pages by which a range grows get the mode of its last page.
    ///
    /// `NoMemory` only if the call needs memory: for a mapping, which no call that is refused changes, or for a message; it changes
    /// nothing.
    pub fn map_call(&mut self, cpu: u8, command: Command) -> Result<(Reply, u8), NoMemory>
        requires { is_access command ≡ false }
        ensures reply { IfOk result (λ answer. answer.0 ≡ reply_of (memory self.old.host) command) }
        ensures queued { IfOk result (λ answer. answer.1 ≡ machine.queued_by self.old command) }
        ensures space { OnOk result (self.new ≡ machine.called self.old cpu command) }
        ensures memory { OnOk result (memory self.new.host ≡ after (memory self.old.host) command) }
        ensures needs { OnErr result (call_needs_room self.old command ≡ true) }
        ensures err { OnErr result (self.new ≡ self.old) }
    {
        // The clause on memory rests on the invariant, which is known where a field is read.
        let _ = &self.areas;
        match command {
            Command::Mmap {
                addr_len,
                prot,
                place,
            } => self.mmap(cpu, addr_len, prot, place),
            Command::Munmap { addr, len } => self.munmap(cpu, addr, len),
            Command::Mremap {
                addr,
                old_len,
                new_len,
                may_move,
                fixed,
            } => self.mremap(cpu, addr, old_len, new_len, may_move, fixed),
            Command::DontNeed { addr, len } => self.dontneed(cpu, addr, len),
            _ => unreachable!(),
        }
    }

    fn mmap(&mut self, cpu: u8, len: u64, prot: Prot, place: Place) -> Result<(Reply, u8), NoMemory>
        ensures reply { IfOk result (λ answer.
            answer.0 ≡ reply_of (memory self.old.host) (Command.Mmap len prot place)) }
        ensures queued { IfOk result (λ answer.
            answer.1 ≡ machine.queued_by self.old (Command.Mmap len prot place)) }
        ensures space { OnOk result (self.new ≡
            machine.called self.old cpu (Command.Mmap len prot place)) }
        ensures needs { OnErr result (call_needs_room self.old (Command.Mmap len prot place) ≡
            true) }
        ensures err { OnErr result (self.new ≡ self.old) }
    {
        match mmap_place(&self.areas, len, place) {
            Err(errno) => Ok((Reply::Refused(errno), 0)),
            Ok(start) => {
                let first = (start / PAGE_SIZE) as PageNo;
                let count = page_count(len) as u32;
                let end = page_address(first + count);
                let message = Message::Unmap { start, end };
                let is_due = self.object.is_any_registered(first, count);
                let queued = queue_if_due(&mut self.object, is_due, message, cpu)?;
                let Ok(()) = self.areas.map(first, count, prot) else {
                    self.object.take_back_events(queued);
                    return Err(NoMemory);
                };
                self.pages.drop_range(first, count);
                self.object.forget_range(first, count);
                Ok((Reply::At(start), queued))
            }
        }
    }

    fn munmap(&mut self, cpu: u8, addr: Addr, len: u64) -> Result<(Reply, u8), NoMemory>
        ensures reply { IfOk result (λ answer.
            answer.0 ≡ reply_of (memory self.old.host) (Command.Munmap addr len)) }
        ensures queued { IfOk result (λ answer.
            answer.1 ≡ machine.queued_by self.old (Command.Munmap addr len)) }
        ensures space { OnOk result (self.new ≡
            machine.called self.old cpu (Command.Munmap addr len)) }
        ensures needs { OnErr result (call_needs_room self.old (Command.Munmap addr len) ≡ true) }
        ensures err { OnErr result (self.new ≡ self.old) }
    {
        let count = page_count(len);
        if addr % PAGE_SIZE != 0
            || len == 0
            || addr > HIGH
            || count > u64::from(HIGH_PAGE) - addr / PAGE_SIZE
        {
            return Ok((Reply::Refused(Errno::Einval), 0));
        }
        let first = (addr / PAGE_SIZE) as PageNo;
        let count = count as u32;
        let end = page_address(first + count);
        let message = Message::Unmap { start: addr, end };
        let is_due = self.object.is_any_registered(first, count);
        let queued = queue_if_due(&mut self.object, is_due, message, cpu)?;
        let Ok(()) = self.areas.unmap(first, count) else {
            self.object.take_back_events(queued);
            return Err(NoMemory);
        };
        self.pages.drop_range(first, count);
        self.object.forget_range(first, count);
        Ok((Reply::Done, queued))
    }

    fn mremap(
        &mut self,
        cpu: u8,
        addr: Addr,
        old_len: u64,
        new_len: u64,
        may_move: bool,
        fixed: Option<Addr>,
    ) -> Result<(Reply, u8), NoMemory>
        ensures reply { IfOk result (λ answer.
            answer.0 ≡ reply_of (memory self.old.host)
            (Command.Mremap addr old_len new_len may_move fixed)) }
        ensures queued { IfOk result (λ answer.
            answer.1 ≡ machine.queued_by self.old
            (Command.Mremap addr old_len new_len may_move fixed)) }
        ensures space { OnOk result (self.new ≡
            machine.called self.old cpu (Command.Mremap addr old_len new_len may_move fixed)) }
        ensures needs { OnErr result
            (call_needs_room self.old (Command.Mremap addr old_len new_len may_move fixed) ≡ true) }
        ensures err { OnErr result (self.new ≡ self.old) }
    {
        match mremap_place(&self.areas, addr, old_len, new_len, may_move, fixed) {
            Err(errno) => Ok((Reply::Refused(errno), 0)),
            Ok(target) => {
                let range = Remap {
                    from: (addr / PAGE_SIZE) as PageNo,
                    count: page_count(old_len) as u32,
                    to: (target / PAGE_SIZE) as PageNo,
                    new_count: page_count(new_len) as u32,
                };
                let queued = remapped(
                    &mut self.areas,
                    &mut self.pages,
                    &mut self.object,
                    range,
                    cpu,
                )?;
                Ok((Reply::At(target), queued))
            }
        }
    }

    fn dontneed(&mut self, cpu: u8, addr: Addr, len: u64) -> Result<(Reply, u8), NoMemory>
        ensures reply { IfOk result (λ answer.
            answer.0 ≡ reply_of (memory self.old.host) (Command.DontNeed addr len)) }
        ensures queued { IfOk result (λ answer.
            answer.1 ≡ machine.queued_by self.old (Command.DontNeed addr len)) }
        ensures space { OnOk result (self.new ≡
            machine.called self.old cpu (Command.DontNeed addr len)) }
        ensures needs { OnErr result (call_needs_room self.old (Command.DontNeed addr len) ≡ true) }
        ensures err { OnErr result (self.new ≡ self.old) }
    {
        let reply = dontneed_reply(&self.areas, addr, len);
        if is_invalid(reply) {
            return Ok((reply, 0));
        }
        let high = u64::from(HIGH_PAGE);
        let first = (addr / PAGE_SIZE).min(high) as PageNo;
        let end = (addr / PAGE_SIZE + page_count(len)).min(high) as PageNo;
        let message = Message::Remove {
            start: addr,
            end: page_address(end),
        };
        let is_due = self.object.is_any_registered(first, end - first);
        let queued = queue_if_due(&mut self.object, is_due, message, cpu)?;
        self.pages.drop_range(first, end - first);
        Ok((reply, queued))
    }
}
