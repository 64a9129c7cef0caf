//! Two drivers are a world. The nodes of a driver hold no byte, and it keeps the bytes of its guest itself; `specs/Drivers.antt` says what
//! its part is. Each law is a function with an empty body, whose contract is the law.

ghost use Rattle.std.specs.Prelude.{◌≡◌, ℕ, true, false, List};
ghost use Rattle.mig_base.specs.declared.schedule.Step.{Step};
ghost use Rattle.mig_base.specs.Flat.{IsFlatRun, memory_of};
ghost use Rattle.mig_model.specs.Host.{memory};
ghost use Rattle.mig_model.specs.Migration.{first_world_with};
ghost use Rattle.mig_model.specs.Source.{is_released};
ghost use Rattle.mig_laws.specs.Claims.{AreHeldBy, AreOfDrivers, DriverRun, HasDrivers, ProcessRun, Puts, ZeroesHere, ZeroesThere};
ghost use Rattle.mig_laws.specs.Drivers.{Drivers, HasAlone, IsPutRight, IsWorldOf, entries_of, has_page, seen_by};
ghost use Rattle.mig_laws.specs.Orders.{AreWhole};
ghost use Rattle.mig_laws.specs.Processes.{IsSettled, Processes};

/// The headline of two drivers. Their nodes hold no byte. Each driver does its part: it keeps the bytes of its guest, fills the frames that
/// its node sends, puts what came where its node says, and enters each access that meets a fault. Nothing else touches the guest's memory.
/// Before the switch another destination may take the place of the first one. Then, whatever becomes of the channels, the commands of the
/// guest, with the replies that it got, are the run of one flat memory, and the guest sees the last of it. No copy and no page of zeros is
/// put over a page that is present. Once the source is released, the destination's driver alone has that memory, and no page is owed.
/// Whenever the processes are settled, both are the two nodes of a world with all bytes, which has the accesses that met no fault as well,
/// and the bytes are the drivers' own; so all that is proved of every world holds of what the drivers have.
pub fn two_drivers_are_a_world()
    ensures processes { (run : DriverRun) → (last : Processes) × AreHeldBy run last }
    ensures world { (run : DriverRun) → IsSettled run.last.nodes → (steps : List Step) ×
        IsWorldOf run.cpus run.epoch run.rounds run.deeds run.last steps }
    ensures transcript { (run : DriverRun) → IsFlatRun (entries_of run.last) }
    ensures seen { (run : DriverRun) →
        memory (seen_by run.last) ≡ memory_of (entries_of run.last) }
    ensures alone { (run : DriverRun) → is_released run.last.nodes.source.phase ≡ true →
        HasAlone run.last }
    ensures put { (run : DriverRun) (new : Drivers) (addr origin : ℕ) →
        Puts run.last new addr origin → IsPutRight run.last new addr origin }
    ensures zeroed_here { (run : DriverRun) (new : Drivers) (addr : ℕ) →
        ZeroesHere run.last new addr → has_page run.last.here.pages addr ≡ false }
    ensures zeroed_there { (run : DriverRun) (new : Drivers) (addr : ℕ) →
        ZeroesThere run.last new addr → has_page run.last.there.held.pages addr ≡ false }
{}

/// The other way round: whatever happens to two processes whose nodes hold all bytes is what two drivers can do, with each access entered
/// at a node. The two sides of every run of a world whose deliveries are of whole frames are such processes. So the premises of the law
/// above leave out no run of two processes that keep their destination.
pub fn every_run_is_one_of_drivers()
    ensures processes { (run : ProcessRun) → HasDrivers run }
    ensures world { (cpus epoch rounds : ℕ) (steps : List Step) →
        AreWhole (first_world_with cpus epoch rounds) steps →
        AreOfDrivers cpus epoch rounds steps }
{}
