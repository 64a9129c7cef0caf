//! The handlers use the calls of the userfault object. Where a step registers pages, or puts or protects a page, the row of that call in
//! `specs/Ioctls.antt` returns no error, leaves the space that the machine has, and wakes the processors that the machine wakes. Each law
//! is a function with an empty body, whose contract is the law.

ghost use Rattle.std.specs.Prelude.{List};
ghost use Rattle.std.specs.Ordering.{nat_cmp};
ghost use Rattle.std.specs.FinMap.{FinMap};
ghost use Rattle.mig_base.specs.declared.Prot.{Prot};
ghost use Rattle.mig_base.specs.declared.Run.{Run};
ghost use Rattle.mig_model.specs.Migration.{World};
ghost use Rattle.mig_model.specs.Promises.{IsReached};
ghost use Rattle.mig_model.specs.Bounds.{IsMapping};
ghost use Rattle.mig_model.specs.Laws.{ProtectsSent, PutsPages, RegistersAreas, ResolvesFaults, WakesSleepers};
ghost use Rattle.mig_model.specs.Handlers.{AreRunsOf};

/// The source's handler puts a page of zeros by UFFDIO_ZEROPAGE, and unprotects a page by UFFDIO_WRITEPROTECT. Both wake those that
/// sleep on the page.
pub fn the_source_resolves_faults()
    ensures { (world : World) → IsReached world → ResolvesFaults world }
{}

/// Where nothing is to be put or unprotected, the handlers wake those that sleep on the page of the fault by UFFDIO_WAKE, whether the page
/// is present or gone.
pub fn the_handlers_wake()
    ensures { (world : World) → IsReached world → WakesSleepers world }
{}

/// A page that is sent in a round is protected by UFFDIO_WRITEPROTECT, which wakes nobody. The pages of a run are protected by one call.
pub fn the_source_protects_what_it_sends()
    ensures { (world : World) → IsReached world → ProtectsSent world }
{}

/// The destination makes a missing page that is not owed zeros by UFFDIO_ZEROPAGE, and installs a copy by UFFDIO_COPY. If the copy is a
/// page of zeros, UFFDIO_ZEROPAGE does the same.
pub fn the_destination_puts_pages()
    ensures { (world : World) → IsReached world → PutsPages world }
{}

/// Pages are registered area by area. For any list of runs that covers exactly the mapped pages, one UFFDIO_REGISTER for each run is
/// accepted, and together they leave the space that the machine has. Start and each Round register in both modes. Where the destination
/// begins to run, it registers for missing faults, on an object that UFFDIO_API has just enabled for events. Every mapping within bounds
/// has such runs.
pub fn areas_are_registered()
    ensures registered { (world : World) (runs : List Run) → IsReached world →
        RegistersAreas world runs }
    ensures runs { (areas : FinMap nat_cmp Prot) → IsMapping areas →
        (runs : List Run) × AreRunsOf areas runs }
{}
