//! One host: an address space whose userfault object is not enabled.

ghost use Rattle.std.specs.Prelude.{◌≡◌, true, IfOk, OnOk, OnErr};
ghost use Rattle.mig_base.specs.Flat.{reply_of, after};
ghost use Rattle.mig_model.specs.Host.{bare_host, memory, host_after};
ghost use Rattle.mig_base.specs.Commands.{is_access as is_load_or_store};
ghost use Rattle.hosts.specs.Spaces.{host_needs_room};

use mig_base::{Access, Command, NoMemory, Reply};
use std::alloc::Global;
use std::marker::Model;
use uffd_ioctl::Space;

/// The mapped pages of a host with their protections, and its present pages with their bytes.
///
/// A page that is mapped and not present reads as zeros, and becomes present at the first store to it.
#[derive(Drop)]
pub struct Host {
    space: Space,
}

impl Model for Host {
    ghost use Rattle.mig_model.specs.Host.{Host as HostPages, coded_host};
    ghost use Rattle.hosts.specs.Spaces.{IsUnwatched};

    ghost Value = { HostPages };

    ghost coded = { coded_host };

    ghost view = { λ h. h.space.host };

    ghost invariant = { λ h. IsUnwatched h.space };
}

impl Host {
    /// A host on which nothing is mapped. It takes no memory.
    pub fn new(alloc: Global) -> Self
        ensures { result ≡ bare_host }
    {
        Host {
            space: Space::new(alloc),
        }
    }

    /// Makes a command, and returns the reply of one flat memory. `NoMemory` only if the command needs memory: for a store to a missing
    /// page, for one of another number than 0 to a page of zeros, or to change which pages are mapped. It changes nothing.
    pub fn perform(&mut self, command: Command) -> Result<Reply, NoMemory>
        ensures reply { IfOk result (λ reply. reply ≡ reply_of (memory self.old) command) }
        ensures memory { OnOk result (memory self.new ≡ after (memory self.old) command) }
        ensures host { OnOk result (self.new ≡ host_after self.old command) }
        ensures needs { OnErr result (host_needs_room self.old command ≡ true) }
        ensures err { OnErr result (self.new ≡ self.old) }
    {
        // No page is registered: no access sleeps, and no message names a processor.
        if command.is_access() {
            let Access::Answered(reply) = self.space.access(0, command)? else {
                unreachable!()
            };
            Ok(reply)
        } else {
            let (reply, _) = self.space.map_call(0, command)?;
            Ok(reply)
        }
    }
}
