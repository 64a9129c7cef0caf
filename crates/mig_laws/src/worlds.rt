//! Contents do not matter to a migration. A map of bytes that keeps 0 changes the contents of a world: the bytes of both nodes' memory, of
//! the copies that are kept, in flight or have arrived, and the values of commands and replies. The changed world answers the changed step
//! with the changed answer, and leaves the changed world: no refusal, phase or page number depends on a byte. Each law is a function
//! with an empty body, whose contract is the law.
//!
//! One thing depends on contents: how many bytes complete a frame with the contents of one page, which is shorter if all of them are 0. So
//! the laws leave out deliveries that end inside such a frame, or maps that take another byte to 0.

ghost use Rattle.std.specs.Prelude.{◌≡◌, ℕ, ◌^◌, ◌&&◌, nat_lt, true, false, if◌then◌else◌, List, map};
ghost use Rattle.std.specs.List.{list_all};
ghost use Rattle.mig_base.specs.declared.schedule.Step.{Step};
ghost use Rattle.mig_base.specs.Flat.{IsFlatRun, is_aligned, memory_of};
ghost use Rattle.mig_model.specs.Host.{memory};
ghost use Rattle.mig_model.specs.Migration.{World, after_steps, first_world_with};
ghost use Rattle.mig_model.specs.Promises.{IsReached};
ghost use Rattle.mig_model.specs.Whereabouts.{current_host};
ghost use Rattle.mig_laws.specs.Contents.{IsByteMap, entry_under, memory_under, stored_under};
ghost use Rattle.mig_laws.specs.Runs.{AnswersAlike, CompleteAlike, DecideAlike, DecidesAsZeros, IsReachedWhole, KeepsOthers, NonePartial, RefusesAlike, changed_outcomes, changed_run, is_long, outcomes_under, zeros};
ghost use Rattle.mig_laws.specs.Worlds.{HasWholePages, is_partial, world_under};

/// Each page of a reached world is 4096 numbers below 256, wherever it is, and a frame Page is never all zeros.
pub fn reached_worlds_have_whole_pages()
    ensures { (world : World) → IsReached world → HasWholePages world }
{}

/// The changed world answers the changed step with the changed answer: of the effect, the value of a load and the word page or zero are
/// changed. It holds of every step but a delivery that ends inside a Page, and of these too if the map takes no other byte to 0.
pub fn every_changed_step()
    ensures answer { (f : ℕ → ℕ) (world : World) (step : Step) → IsByteMap f → IsReached world →
        is_partial world step ≡ false → AnswersAlike f world step }
    ensures kept { (f : ℕ → ℕ) (world : World) (step : Step) → IsByteMap f → KeepsOthers f →
        IsReached world → AnswersAlike f world step }
    ensures long { (world : World) (step : Step) → is_long step ≡ true →
        is_partial world step ≡ false }
    ensures refused { (f : ℕ → ℕ) (world : World) (step : Step) → IsByteMap f → IsReached world →
        is_partial world step ≡ false → RefusesAlike f world step }
{}

/// The same of steps made in turn: the changed run answers the changed answers, and ends in the changed world. In a run whose deliveries
/// are each of 4112 bytes or more, which always complete a Page, none ends inside one.
pub fn every_changed_run()
    ensures world { (f : ℕ → ℕ) (world : World) (steps : List Step) → IsByteMap f →
        IsReached world → NonePartial world steps →
        changed_run f world steps ≡ world_under f (after_steps world steps) }
    ensures answers { (f : ℕ → ℕ) (world : World) (steps : List Step) → IsByteMap f →
        IsReached world → NonePartial world steps →
        changed_outcomes f world steps ≡ outcomes_under f world steps }
    ensures kept_world { (f : ℕ → ℕ) (world : World) (steps : List Step) → IsByteMap f →
        KeepsOthers f → IsReached world →
        changed_run f world steps ≡ world_under f (after_steps world steps) }
    ensures kept_answers { (f : ℕ → ℕ) (world : World) (steps : List Step) → IsByteMap f →
        KeepsOthers f → IsReached world →
        changed_outcomes f world steps ≡ outcomes_under f world steps }
    ensures long { (world : World) (steps : List Step) → list_all is_long steps ≡ true →
        NonePartial world steps }
    ensures first { (f : ℕ → ℕ) (cpus epoch rounds : ℕ) →
        world_under f (first_world_with cpus epoch rounds) ≡
        first_world_with cpus epoch rounds }
{}

/// Phases, epochs, clean pages and those to be sent, what remains, is asked for, owed and requested, the counts, which pages are mapped,
/// present, protected and registered, which copies are kept and have arrived, unread messages, what each processor waits for, and each
/// Discard, Package and Recv in flight depend on no byte; so a changed run completes exactly if the run does.
pub fn what_no_byte_decides()
    ensures world { (f : ℕ → ℕ) (world : World) → DecideAlike world (world_under f world) }
    ensures run { (f : ℕ → ℕ) (world : World) (steps : List Step) → IsByteMap f →
        IsReached world → NonePartial world steps →
        DecideAlike (after_steps world steps) (changed_run f world steps) }
    ensures kept_run { (f : ℕ → ℕ) (world : World) (steps : List Step) → IsByteMap f →
        KeepsOthers f → IsReached world →
        DecideAlike (after_steps world steps) (changed_run f world steps) }
    ensures complete { (f : ℕ → ℕ) (world : World) (steps : List Step) → IsByteMap f →
        IsReached world → NonePartial world steps →
        CompleteAlike (after_steps world steps) (changed_run f world steps) }
{}

/// The changed world of a run is reached by the changed run, so each law of a reached world holds of it. Its transcript is that of the run
/// with each value changed, which is a run of one flat memory again; and the guest sees the changed memory, which is that flat memory.
pub fn the_headline_carries_over()
    ensures reached { (f : ℕ → ℕ) (world : World) → IsByteMap f → IsReachedWhole world →
        IsReached (world_under f world) }
    ensures kept { (f : ℕ → ℕ) (world : World) → IsByteMap f → KeepsOthers f → IsReached world →
        IsReached (world_under f world) }
    ensures transcript { (f : ℕ → ℕ) (world : World) → IsByteMap f → IsReachedWhole world →
        IsFlatRun (map (entry_under f) world.transcript) }
    ensures seen { (f : ℕ → ℕ) (world : World) → IsByteMap f →
        memory (current_host (world_under f world)) ≡
        memory_under f (memory (current_host world)) }
    ensures memory { (f : ℕ → ℕ) (world : World) → IsByteMap f → IsReachedWhole world →
        memory_under f (memory (current_host world)) ≡
        memory_of (map (entry_under f) world.transcript) }
{}

/// The map that takes every byte to 0 is such a map. Its changed run is the run in which each store of the right form stores 0, and a
/// store of a wrong form, which is answered BadAccess, keeps its value. From a first world both runs make the same decisions.
pub fn the_run_of_zeros()
    ensures map { IsByteMap zeros }
    ensures store { (addr width value : ℕ) → stored_under zeros addr width value ≡
        (if is_aligned addr width && nat_lt value (256 ^ width) then 0 else value) }
    ensures run { (cpus epoch rounds : ℕ) (steps : List Step) →
        DecidesAsZeros (first_world_with cpus epoch rounds) steps }
{}
