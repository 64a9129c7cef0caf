//! The rules of a kernel allow what the object of the model answers: each ioctl and each read(2), and the logs of both nodes' calls. What is
//! known of the kernel's object afterwards agrees with the model's. The other way round nothing is said: a kernel may also answer otherwise.
//! `specs/Agreement.antt` says what agrees, `Reading.antt` how messages are read and threads wait, `Maps.antt` what a map call needs,
//! `Handlers.antt` what the nodes' handlers call, `Logs.antt` what the log of a node is, and `Example.antt` has one.
//!
//! Each law is a function with an empty body, whose contract is the law.
#![tactic(auto)]

ghost use Rattle.std.specs.Prelude.{◌≡◌, ◌+◌, ◌*◌, ℕ, true, false, Option, Some, None, List, [], ◌∷◌, length};
ghost use Rattle.foundation.specs.declared.TheConstants.{PAGE_SIZE};
ghost use Rattle.mig_base.specs.declared.command.Command.{Command};
ghost use Rattle.mig_base.specs.declared.command.Errno.{Errno};
ghost use Rattle.mig_base.specs.declared.command.Reply.{Reply};
ghost use Rattle.mig_base.specs.declared.effect.Effect.{Effect};
ghost use Rattle.mig_base.specs.declared.schedule.Step.{Step};
ghost use Rattle.mig_base.specs.Bytes.{zero_page};
ghost use Rattle.mig_base.specs.Flat.{munmap_reply};
ghost use Rattle.mig_model.specs.Ioctls as model;
ghost use Rattle.mig_model.specs.Ioctls.{read_space};
ghost use Rattle.mig_model.specs.Migration.{next};
ghost use Rattle.mig_model.specs.Wire.{Copy};
ghost use Rattle.mig_model.specs.Space.{IsSoundSpace, Space, access_of, accessed};
ghost use Rattle.uffd_log.specs.declared.line.Answer.{Answer};
ghost use Rattle.kernel_rules.specs.Ioctls as rules;
ghost use Rattle.kernel_rules.specs.MapCalls.{clears, may_return, returned};
ghost use Rattle.kernel_rules.specs.State.{may_be_outside};
ghost use Rattle.kernel_laws.specs.Agreement.{Agree, AreMapped, AreUnmapsAndRemaps, Counterparts, Takes, answer_of_api, answer_of_put, answer_of_register, answer_of_wake, is_inside};
ghost use Rattle.kernel_laws.specs.Example.{IsOfDestination, its_calls};
ghost use Rattle.kernel_laws.specs.Handlers.{DestinationStep, SourceStep, copies_page, destination_after, protects_pages, source_after, wakes_page, zeroes_page};
ghost use Rattle.kernel_laws.specs.Logs.{AreFollowed, AreLogged, Arrival, Beginning, HasRun, IsUnreleased, Running, Watching, arrived, arriving, calls_written, first_calls, running, source, source_left, source_log, space_left, watching, whole_log};
ghost use Rattle.kernel_laws.specs.Maps.{Follow, FollowTold, IsPlaced, MapCall, Mapping, MayClear, MayDiscard, Move, command_of, discards, failed, maps, moves, mremap_of, remap_reply, reply_of, unmaps};
ghost use Rattle.kernel_laws.specs.Reading.{EventNext, FaultNext, NoneNext, Trying, fails_to_read, makes, reads_event, reads_fault};

/// A kernel may answer each ioctl as the model does, whether it is refused, or done in part or whole. The range ends in the model's address
/// space, no page fault is unread before the handshake, the buffer of UFFDIO_COPY is where any process may have memory, and a range that is
/// registered has no holes.
/// The model returns no word of ioctls: any that a kernel may return takes its place.
pub fn a_kernel_may_answer_so()
    ensures api { (one : Counterparts) (api features ioctls : ℕ) →
        rules.is_offer model.all_features ioctls ≡ true →
        (one.space.object.enabled ≡ false → one.space.object.faults ≡ []) →
        Takes (rules.shaken one.kernel one.name one.object api features
        (answer_of_api ioctls (model.handshake_answer one.space api features)))
        (model.handshaken one.space api features) one.name }
    ensures register { (one : Counterparts) (start len bits ioctls : ℕ) →
        rules.has_calls bits ioctls ≡ true →
        (model.register_error one.space start len bits ≡ None → AreMapped one.space start len) →
        Takes (rules.registered one.kernel one.name one.object start len bits
        (answer_of_register ioctls (model.register_error one.space start len bits)))
        (model.registered one.space start len bits) one.name }
    ensures unregister { (one : Counterparts) (start len : ℕ) →
        Takes (rules.unregistered one.kernel one.name one.object start len
        (answer_of_wake (model.unregister_answer one.space start len)))
        (model.range_unregistered one.space start len) one.name }
    ensures wake { (one : Counterparts) (start len : ℕ) → is_inside start len ≡ true →
        Takes (rules.waked one.kernel one.name one.object start len
        (answer_of_wake (model.wake_answer one.space start len))) one.space one.name }
    ensures zeropage { (one : Counterparts) (key start len bits : ℕ) → is_inside start len ≡ true →
        Takes (rules.put_with one.kernel key one.name one.object start len bits 1
        (answer_of_put (model.zeropage_answer one.space start len bits)))
        (model.zeropaged one.space start len bits) one.name }
    ensures copy { (one : Counterparts) (key start from : ℕ) (bytes : List ℕ) (bits : ℕ) →
        is_inside start (length bytes) ≡ true → may_be_outside from (length bytes) ≡ false →
        Takes (rules.copied one.kernel key one.name one.object start from (length bytes) bits
        (answer_of_put (model.copy_answer one.space start bytes bits)))
        (model.copied one.space start bytes bits) one.name }
    ensures writeprotect { (one : Counterparts) (key start len bits : ℕ) →
        is_inside start len ≡ true →
        Takes (rules.protected_with one.kernel key one.name one.object start len bits
        (answer_of_wake (model.writeprotect_answer one.space start len bits)))
        (model.write_protected one.space start len bits) one.name }
{}

/// A kernel may let read(2) return each message that the model's object returns, in the same order, and may fail as it does. The message is
/// queued when it is read: the thread whose page fault it is has been on its way until then, or the map call has waited. No thread reads its own
/// page fault.
pub fn a_kernel_may_be_read_so()
    ensures fault { (next : FaultNext) (key : ℕ) →
        (thread : ℕ) ×
        Takes (reads_fault next.one thread key next.reader next.room next.noted.message)
        (read_space next.one.space) next.one.name }
    ensures event { (next : EventNext) (key : ℕ) (reader : Option ℕ) → (call : ℕ) ×
        Takes (reads_event next.one call key reader next.room next.noted.message)
        (read_space next.one.space) next.one.name }
    ensures none { (next : NoneNext) (key : ℕ) (reader room : Option ℕ) →
        Takes (fails_to_read next.one key reader room next.errno) next.one.space next.one.name }
{}

/// A thread of a kernel may wait at each page where a processor of the model sleeps, and queue the same page fault; where the model makes the
/// access, the objects still agree.
pub fn a_thread_waits_as_a_processor()
    ensures { (it : Trying) →
        Takes (makes (access_of it.one.space it.command) it.one it.thread it.command)
        (accessed it.one.space it.cpu it.command) it.one.name }
{}

/// A kernel may make a guest's munmap(2), mmap(2) and MADV_DONTNEED as the model does, without a difference, and both agree afterwards. The range
/// is no longer registered, or cleared, and if any page of it was registered an UNMAP or a REMOVE of it waits to be read. So may it make an
/// mremap(2), which moves pages with their registrations; both agree but for its events, of which a kernel has its own. A refused
/// call changes nothing, but for MADV_DONTNEED over a hole; a call returns once all that it told is read. Its number is new, and a fixed mapping
/// is where it was to be. No page that MADV_DONTNEED clears is known to be present: a kernel clears it only when the REMOVE is read.
pub fn a_kernel_may_map_so()
    ensures munmap { (it : MapCall) (cpu addr len : ℕ) → munmap_reply addr len ≡ Reply.Done →
        Follow it cpu (Command.Munmap addr len) (unmaps it addr len Answer.Done) }
    ensures munmap_refused { (it : MapCall) (cpu addr len : ℕ) (errno : Errno) →
        munmap_reply addr len ≡ Reply.Refused errno →
        Follow it cpu (Command.Munmap addr len) (unmaps it addr len (failed errno)) }
    ensures mmap { (it : MapCall) (made : Mapping) (cpu start : ℕ) →
        reply_of it made ≡ Reply.At start → IsPlaced made start →
        Follow it cpu (command_of made) (maps it made (Answer.Value start)) }
    ensures mmap_refused { (it : MapCall) (made : Mapping) (cpu : ℕ) (errno : Errno) →
        reply_of it made ≡ Reply.Refused errno →
        Follow it cpu (command_of made) (maps it made (failed errno)) }
    ensures mremap { (it : MapCall) (move : Move) (cpu target : ℕ) →
        remap_reply it move ≡ Reply.At target →
        FollowTold it cpu move (moves it move (Answer.Value target)) }
    ensures mremap_refused { (it : MapCall) (move : Move) (cpu : ℕ) (errno : Errno) →
        remap_reply it move ≡ Reply.Refused errno →
        Follow it cpu (mremap_of move) (moves it move (failed errno)) }
    ensures dontneed { (it : MapCall) (cpu addr len : ℕ) → MayDiscard it addr len →
        Follow it cpu (Command.DontNeed addr len) (discards it addr len) }
    ensures clears { (one : Counterparts) (key : ℕ) → MayClear one key →
        Takes (clears one.kernel key) one.space one.name }
    ensures returns { (one : Counterparts) (key : ℕ) → may_return one.kernel key ≡ true →
        Agree one.space (returned one.kernel key) one.name one.object }
{}

/// The calls of a destination's handler are calls of a kernel: UFFDIO_COPY where a copy is installed, UFFDIO_ZEROPAGE where a page is made
/// zeros, and UFFDIO_WAKE where nothing is to be put. The kernel's object agrees with the destination's again afterwards. The buffer of
/// UFFDIO_COPY is where any process may have memory; a copy of zeros may be put by UFFDIO_ZEROPAGE.
pub fn a_kernel_follows_the_destination()
    ensures installed { (addr origin key from : ℕ)
        (at : DestinationStep Step.Install (Effect.Installed addr origin)) →
        may_be_outside from PAGE_SIZE ≡ false → Takes (copies_page at.one key from addr)
        (destination_after at.world Step.Install) at.one.name }
    ensures installed_zeros { (addr origin key : ℕ) (copy : Copy) (rest : List Copy)
        (at : DestinationStep Step.Install (Effect.Installed addr origin)) →
        at.world.destination.arrivals ≡ copy ∷ rest → copy.bytes ≡ zero_page →
        Takes (zeroes_page at.one key addr)
        (destination_after at.world Step.Install) at.one.name }
    ensures zeroed { (addr key : ℕ) (at : DestinationStep Step.DestAct (Effect.Zeroed addr)) →
        Takes (zeroes_page at.one key addr) (destination_after at.world Step.DestAct) at.one.name }
    ensures woke { (addr : ℕ) (at : DestinationStep Step.DestAct (Effect.Woke addr)) →
        Takes (wakes_page at.one addr) (destination_after at.world Step.DestAct) at.one.name }
    ensures forgot { (addr : ℕ) (at : DestinationStep Step.DestAct (Effect.Forgot addr)) →
        Takes (wakes_page at.one addr) (destination_after at.world Step.DestAct) at.one.name }
{}

/// So are those of a source's handler: UFFDIO_WRITEPROTECT where pages are sent or one is unprotected, UFFDIO_ZEROPAGE and UFFDIO_WAKE.
pub fn a_kernel_follows_the_source()
    ensures page { (addr key : ℕ) (at : SourceStep Step.Send (Effect.SentPage addr)) →
        Takes (protects_pages at.one key addr PAGE_SIZE 1)
        (source_after at.world Step.Send) at.one.name }
    ensures zero { (addr key : ℕ) (at : SourceStep Step.Send (Effect.SentZero addr)) →
        Takes (protects_pages at.one key addr PAGE_SIZE 1)
        (source_after at.world Step.Send) at.one.name }
    ensures run { (count addr pages key : ℕ)
        (at : SourceStep (Step.SendRun count) (Effect.SentRun addr pages)) →
        Takes (protects_pages at.one key addr (PAGE_SIZE * pages) 1)
        (source_after at.world (Step.SendRun count)) at.one.name }
    ensures unprotected { (addr key : ℕ)
        (at : SourceStep Step.SourceAct (Effect.Unprotected addr)) →
        Takes (protects_pages at.one key addr PAGE_SIZE 0)
        (source_after at.world Step.SourceAct) at.one.name }
    ensures zeroed { (addr key : ℕ) (at : SourceStep Step.SourceAct (Effect.Zeroed addr)) →
        Takes (zeroes_page at.one key addr) (source_after at.world Step.SourceAct) at.one.name }
    ensures woke { (addr : ℕ) (at : SourceStep Step.SourceAct (Effect.Woke addr)) →
        Takes (wakes_page at.one addr) (source_after at.world Step.SourceAct) at.one.name }
    ensures forgot { (addr : ℕ) (at : SourceStep Step.SourceAct (Effect.Forgot addr)) →
        Takes (wakes_page at.one addr) (source_after at.world Step.SourceAct) at.one.name }
{}

/// The steps of a world whose destination runs, as a log of its handler's calls and of its guest's map calls: the rules of a kernel have a run
/// of it, from each kernel at rest whose object agrees, to one that agrees with the destination after the steps. A thread sees its page when its
/// processor sleeps with a message, and queues its fault when that is read. That its page may be there by then, or gone, is a difference of the
/// run from the model; the messages of mremap(2) are the only other one. Of these the log has a kernel's, in its order: one is read where the
/// model reads one, and all that are left with the model's last. A map call returns once its messages are read. The pages of MADV_DONTNEED stay
/// in the kernel until its REMOVE is read; until then nobody accesses them, no mremap is done, and no other map call has a message. The buffer
/// of UFFDIO_COPY is where any process may have memory. So the whole log, which begins where the destination has taken the Package, opens its
/// object and registers the mapped pages, is one that a kernel may have written.
pub fn a_destination_is_logged()
    ensures steps { (at : Running) (key : ℕ) (steps : List Step) →
        AreFollowed (running at) key [] at.world steps →
        AreLogged (running at) at.one key at.world steps }
    ensures whole { (it : Arrival) (steps : List Step) →
        AreFollowed (arriving it) (length (first_calls it)) [] (arrived it) steps →
        HasRun (whole_log it steps) (space_left it steps) }
{}

/// There is such a log: the destination opens its object, registers the guest's one page, reads a page fault and copies the page. Its processor
/// sleeps, the page is requested, and the install wakes it.
pub fn a_destination_fetches_a_page()
    ensures log { IsOfDestination (calls_written 0 [] its_calls) }
    ensures run { (space : Space) × HasRun (calls_written 0 [] its_calls) space }
{}

/// So is a source, with its guest's map calls until the destination runs; the objects agree until its memory is released. Start and Round
/// register every mapped page in both modes, and a page is protected before it is sent. Its log has no thread numbers: the model's unread fault
/// stays when its processor is woken, and that one may sleep at another page by then, where a thread of a kernel has one fault at a time. A fault
/// may be read once its page is there or gone, or is no longer protected: this and the messages of mremap(2) are the run's only differences from
/// the model. After the release nothing is written: the log has a run still, in which the object is not closed.
pub fn a_source_is_logged()
    ensures steps { (at : Watching) (key : ℕ) (steps : List Step) →
        AreFollowed (watching at) key [] at.world steps → IsUnreleased at.world steps →
        AreLogged (watching at) at.one key at.world steps }
    ensures whole { (it : Beginning) (steps : List Step) →
        AreFollowed (source it.by 0) 2 [] it.world steps →
        IsUnreleased it.world steps → HasRun (source_log it steps) (source_left it steps) }
    ensures released { (it : Beginning) (steps : List Step) →
        AreFollowed (source it.by 0) 2 [] it.world steps →
        (space : Space) × HasRun (source_log it steps) space }
{}

/// There is such an object of a kernel for every sound space of the model whose unread messages are UNMAP and REMAP, if any. That a log leads
/// to it is not said.
pub fn a_space_has_a_counterpart()
    ensures { (space : Space) → IsSoundSpace space → space.object.faults ≡ [] →
        AreUnmapsAndRemaps space.object.events → (one : Counterparts) × (one.space ≡ space) }
{}
