//! What holds of one address space: each command does to its pages what it does to the flat memory that they represent. Each law is a
//! function with an empty body, whose contract is the law.

ghost use Rattle.std.specs.Prelude.{◌≡◌, ℕ, true, false, List};
ghost use Rattle.mig_base.specs.declared.command.Command.{Command};
ghost use Rattle.mig_base.specs.declared.command.Reply.{Reply};
ghost use Rattle.mig_base.specs.declared.command.Access.TheVariants as access;
ghost use Rattle.mig_base.specs.Flat.{reply_of, after};
ghost use Rattle.mig_model.specs.Host.{Host, memory, host_after, IsSound};
ghost use Rattle.mig_base.specs.Commands.{is_access};
ghost use Rattle.mig_model.specs.Space.{Space, fresh_space, IsSoundSpace, access_of, accessed, called};
ghost use Rattle.mig_model.specs.Ioctls.{handshaken, registered, range_unregistered, copied, zeropaged, write_protected, read_space};

/// A command does to the pages of a host what it does to the flat memory that they represent.
pub fn every_command()
    ensures memory { (host : Host) (command : Command) → IsSound host →
        memory (host_after host command) ≡ after (memory host) command }
    ensures sound { (host : Host) (command : Command) → IsSound host →
        IsSound (host_after host command) }
{}

/// Each load, store, map call and call of the userfault object leaves the space in order: registered pages are mapped, and
/// write-protected pages are present and registered for write-protect faults.
pub fn a_space_stays_sound()
    ensures fresh { IsSoundSpace fresh_space }
    ensures access { (space : Space) (cpu : ℕ) (command : Command) → is_access command ≡ true →
        IsSoundSpace space → IsSoundSpace (accessed space cpu command) }
    ensures call { (space : Space) (cpu : ℕ) (command : Command) → is_access command ≡ false →
        IsSoundSpace space → IsSoundSpace (called space cpu command) }
    ensures handshake { (space : Space) (api features : ℕ) → IsSoundSpace space →
        IsSoundSpace (handshaken space api features) }
    ensures register { (space : Space) (start len mode : ℕ) → IsSoundSpace space →
        IsSoundSpace (registered space start len mode) }
    ensures unregister { (space : Space) (start len : ℕ) → IsSoundSpace space →
        IsSoundSpace (range_unregistered space start len) }
    ensures copy { (space : Space) (start : ℕ) (bytes : List ℕ) (mode : ℕ) → IsSoundSpace space →
        IsSoundSpace (copied space start bytes mode) }
    ensures zeropage { (space : Space) (start len mode : ℕ) → IsSoundSpace space →
        IsSoundSpace (zeropaged space start len mode) }
    ensures writeprotect { (space : Space) (start len mode : ℕ) → IsSoundSpace space →
        IsSoundSpace (write_protected space start len mode) }
    ensures read { (space : Space) → IsSoundSpace space → IsSoundSpace (read_space space) }
{}

/// A space answers as the flat memory of its host does. A load or store that is a page fault leaves the memory as it is. One that is
/// answered changes it as the flat memory changes, and so does a map call.
pub fn a_space_answers_as_its_memory()
    ensures reply { (space : Space) (command : Command) (reply : Reply) →
        access_of space command ≡ access.Answered reply →
        reply ≡ reply_of (memory space.host) command }
    ensures answered { (space : Space) (cpu : ℕ) (command : Command) (reply : Reply) →
        IsSoundSpace space → access_of space command ≡ access.Answered reply →
        memory (accessed space cpu command).host ≡ after (memory space.host) command }
    ensures missing { (space : Space) (cpu : ℕ) (command : Command) →
        access_of space command ≡ access.Missing →
        memory (accessed space cpu command).host ≡ memory space.host }
    ensures protected { (space : Space) (cpu : ℕ) (command : Command) →
        access_of space command ≡ access.Protected →
        memory (accessed space cpu command).host ≡ memory space.host }
    ensures call { (space : Space) (cpu : ℕ) (command : Command) → IsSoundSpace space →
        memory (called space cpu command).host ≡ after (memory space.host) command }
{}
