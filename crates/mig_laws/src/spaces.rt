//! Contents do not matter to one address space. Each law is a function with an empty body, whose contract is the law.

ghost use Rattle.std.specs.Prelude.{◌≡◌, ℕ, List, map};
ghost use Rattle.mig_base.specs.declared.command.Command.{Command};
ghost use Rattle.mig_base.specs.Flat.{reply_of};
ghost use Rattle.mig_model.specs.Host.{Host, memory, host_after};
ghost use Rattle.mig_model.specs.Ioctls.{copied, copy_answer, handshake_error, handshaken, range_unregistered, read_error, read_space, register_error, registered, unregister_error, wake_answer, write_protected, writeprotect_error, zeropage_answer, zeropaged};
ghost use Rattle.mig_model.specs.Space.{Space};
ghost use Rattle.mig_laws.specs.Contents.{Changes, IsByteMap, command_under, host_under, reply_under, space_under};
ghost use Rattle.mig_laws.specs.Laws.{CommandsAlike};

/// A command is answered by the changed space as by the old one, but for the value of a load, and leaves the changed space: it faults,
/// is refused, or queues messages exactly where it did. A store of a wrong form keeps its value, and both spaces answer BadAccess.
pub fn commands_of_a_changed_space()
    ensures reply { (f : ℕ → ℕ) (host : Host) (command : Command) → Changes f host →
        reply_of (memory (host_under f host)) (command_under f command) ≡
        reply_under f (reply_of (memory host) command) }
    ensures host { (f : ℕ → ℕ) (host : Host) (command : Command) → Changes f host →
        host_after (host_under f host) (command_under f command) ≡
        host_under f (host_after host command) }
    ensures space { (f : ℕ → ℕ) (space : Space) → Changes f space.host → CommandsAlike f space }
{}

/// Each call of the userfault object answers the same on the changed space, where the buffer of UFFDIO_COPY is changed too, and leaves the
/// changed space.
pub fn calls_of_a_changed_space()
    ensures handshake { (f : ℕ → ℕ) (space : Space) (api features : ℕ) →
        handshake_error (space_under f space) api features ≡ handshake_error space api features }
    ensures handshaken { (f : ℕ → ℕ) (space : Space) (api features : ℕ) →
        handshaken (space_under f space) api features ≡
        space_under f (handshaken space api features) }
    ensures register { (f : ℕ → ℕ) (space : Space) (start len bits : ℕ) →
        register_error (space_under f space) start len bits ≡
        register_error space start len bits }
    ensures registered { (f : ℕ → ℕ) (space : Space) (start len bits : ℕ) →
        registered (space_under f space) start len bits ≡
        space_under f (registered space start len bits) }
    ensures unregister { (f : ℕ → ℕ) (space : Space) (start len : ℕ) →
        unregister_error (space_under f space) start len ≡ unregister_error space start len }
    ensures unregistered { (f : ℕ → ℕ) (space : Space) (start len : ℕ) →
        range_unregistered (space_under f space) start len ≡
        space_under f (range_unregistered space start len) }
    ensures copy { (f : ℕ → ℕ) (space : Space) (start : ℕ) (bytes : List ℕ) (bits : ℕ) →
        copy_answer (space_under f space) start (map f bytes) bits ≡
        copy_answer space start bytes bits }
    ensures copied { (f : ℕ → ℕ) (space : Space) (start : ℕ) (bytes : List ℕ) (bits : ℕ) →
        copied (space_under f space) start (map f bytes) bits ≡
        space_under f (copied space start bytes bits) }
    ensures zeropage { (f : ℕ → ℕ) (space : Space) (start len bits : ℕ) →
        zeropage_answer (space_under f space) start len bits ≡
        zeropage_answer space start len bits }
    ensures zeropaged { (f : ℕ → ℕ) (space : Space) (start len bits : ℕ) → IsByteMap f →
        zeropaged (space_under f space) start len bits ≡
        space_under f (zeropaged space start len bits) }
    ensures writeprotect { (f : ℕ → ℕ) (space : Space) (start len bits : ℕ) →
        writeprotect_error (space_under f space) start len bits ≡
        writeprotect_error space start len bits }
    ensures write_protected { (f : ℕ → ℕ) (space : Space) (start len bits : ℕ) →
        write_protected (space_under f space) start len bits ≡
        space_under f (write_protected space start len bits) }
    ensures wake { (f : ℕ → ℕ) (space : Space) (start len : ℕ) →
        wake_answer (space_under f space) start len ≡ wake_answer space start len }
    ensures read { (f : ℕ → ℕ) (space : Space) →
        read_error (space_under f space) ≡ read_error space }
    ensures read_space { (f : ℕ → ℕ) (space : Space) →
        read_space (space_under f space) ≡ space_under f (read_space space) }
{}
