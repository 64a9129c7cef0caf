//! Loads and stores of processors.

ghost use Rattle.std.specs.Prelude.{◌≡◌, ◌/◌, ◌<◌, IfOk, IfSome, OnOk, OnErr, IsTrue, true, false};
ghost use Rattle.std.specs.FinMap as map;
ghost use Rattle.mig_base.specs.Flat.{reply_of, number_at, is_aligned as is_form};
ghost use Rattle.mig_base.specs.declared.TheConstants.{HIGH};
ghost use Rattle.mig_model.specs.Host.{memory, host_changed};
ghost use Rattle.mig_base.specs.Commands.{is_access};
ghost use Rattle.mig_model.specs.Space as machine;
ghost use Rattle.uffd_ioctl.specs.Spaces.{memory_after, needs_room, store_needs_room};

use super::Space;
use crate::access::{is_made, number};
use byteorder::{ByteOrder, LittleEndian};
use mig_base::command::{fits, is_aligned};
use mig_base::{
    Access, Addr, Command, HIGH, NoMemory, PAGE_SIZE, PageNo, Prot, Reply, page_address,
};

impl Space {
    /// Makes a load or store of a processor; no other command is allowed. An access that is malformed or not permitted is answered as
    /// one flat memory answers it. An access to a missing page registered for missing faults is a page fault, and so is a store to a
    /// protected page registered for write-protect faults: the processor sleeps, and a message is queued, unless one of the same kind
    /// for the page is unread. Any other access is answered as one flat memory answers it. A load leaves a missing page missing.
    ///
    /// `NoMemory` only if the access needs memory: to queue a page fault, for a store to a missing page, and for a store of another number
    /// than 0 to a page of zeros. It changes nothing.
    pub fn access(&mut self, cpu: u8, command: Command) -> Result<Access, NoMemory>
        requires { is_access command ≡ true }
        ensures access { IfOk result (λ access. access ≡ machine.access_of self.old command) }
        ensures space { OnOk result (self.new ≡ machine.accessed self.old cpu command) }
        ensures memory { IfOk result (λ access.
            memory self.new.host ≡ memory_after access (memory self.old.host) command) }
        ensures needs { OnErr result (needs_room self.old command ≡ true) }
        ensures err { OnErr result (self.new ≡ self.old) }
    {
        // The clauses on memory rest on the invariant, which is known where a field is read.
        let _ = &self.areas;
        let reply = self.reply_to(command);
        if !is_made(reply) {
            return Ok(Access::Answered(reply));
        }
        let page = command.page();
        let mode = self.object.mode_at(page);
        if mode.missing && self.pages.get(page).is_none() {
            self.object
                .queue_fault(page_address(page), command.is_store(), cpu)?;
            return Ok(Access::Missing);
        }
        if command.is_store() && mode.protect && self.pages.is_protected(page) {
            self.object.queue_protect_fault(page_address(page), cpu)?;
            return Ok(Access::Protected);
        }
        if let Command::Store { addr, width, value } = command {
            self.write(addr, width, value)?;
        }
        Ok(Access::Answered(reply))
    }

    /// The reply of one flat memory to a load or store.
    fn reply_to(&self, command: Command) -> Reply
        requires { is_access command ≡ true }
        ensures { result ≡ reply_of (memory self.now.host) command }
    {
        match command {
            Command::Load { addr, width } => self.load(addr, width),
            Command::Store { addr, width, value } => self.store_reply(addr, width, value),
            _ => unreachable!(),
        }
    }

    fn load(&self, addr: Addr, width: u8) -> Reply
        ensures { result ≡ reply_of (memory self.now.host) (Command.Load addr width) }
    {
        if !is_aligned(addr, width) {
            return Reply::BadAccess;
        }
        match self.prot_at(addr) {
            None => Reply::Segv { mapped: false },
            Some(prot) if prot.allows_load() => Reply::Value(self.number_at(addr, width)),
            Some(_) => Reply::Segv { mapped: true },
        }
    }

    /// The reply to a store that is not made yet.
    fn store_reply(&self, addr: Addr, width: u8, value: u64) -> Reply
        ensures { result ≡ reply_of (memory self.now.host) (Command.Store addr width value) }
    {
        if !is_aligned(addr, width) || !fits(value, width) {
            return Reply::BadAccess;
        }
        match self.prot_at(addr) {
            None => Reply::Segv { mapped: false },
            Some(prot) if prot.allows_store() => Reply::Done,
            Some(_) => Reply::Segv { mapped: true },
        }
    }

    /// The protection at an address, if it is mapped.
    fn prot_at(&self, addr: Addr) -> Option<Prot>
        ensures prot { result ≡ map.get self.now.host.areas (addr / 4096) }
        ensures high { IfSome result (λ _. addr < HIGH) }
    {
        if addr < HIGH {
            self.areas.prot_at((addr / PAGE_SIZE) as PageNo)
        } else {
            None
        }
    }

    /// The number of `width` bytes at an address.
    fn number_at(&self, addr: Addr, width: u8) -> u64
        requires high { addr < HIGH }
        requires aligned { is_form addr width ≡ true }
        requires mapped { IsTrue (map.contains_key self.now.host.areas (addr / 4096)) }
        ensures { result ≡ number_at (memory self.now.host) addr width }
    {
        let offset = (addr % PAGE_SIZE) as usize;
        match self.pages.get((addr / PAGE_SIZE) as PageNo) {
            Some(bytes) => number(&bytes[offset..offset + usize::from(width)]),
            None => 0,
        }
    }

    /// Writes the `width` bytes of a number at an address, and makes their page present. `NoMemory`, which comes only if the page is
    /// missing, or is a page of zeros that gets another number than 0, changes nothing.
    fn write(&mut self, addr: Addr, width: u8, value: u64) -> Result<(), NoMemory>
        requires high { addr < HIGH }
        requires aligned { is_form addr width ≡ true }
        requires mapped { IsTrue (map.contains_key self.old.host.areas (addr / 4096)) }
        ensures ok { OnOk result (self.new ≡
            record self.old {
              host = host_changed self.old.host (Command.Store addr width value)
                  Reply.Done;
            }) }
        ensures needs { OnErr result
            (store_needs_room self.old.host (Command.Store addr width value) ≡ true) }
        ensures err { OnErr result (self.new ≡ self.old) }
    {
        let page = (addr / PAGE_SIZE) as PageNo;
        let offset = (addr % PAGE_SIZE) as usize;
        let mut bytes = [0; 8];
        LittleEndian::write_u64(&mut bytes, value);
        self.pages
            .write(page, offset, &bytes[..usize::from(width)])?;
        Ok(())
    }
}
