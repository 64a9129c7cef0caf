//! Laws of the texts of frames, which are their bytes on the wires of a migration. Each law is a function with an empty body, whose
//! contract is the law.

ghost use Rattle.std.specs.Prelude.{◌≡◌, ◌≢◌, ℕ, ◌+◌, ◌-◌, ◌*◌, ◌^◌, ◌<◌, ◌≤◌, true, length, Option, Some, None, List, [], ◌∷◌, ◌++◌};
ghost use Rattle.std.specs.Ordering.{nat_cmp};
ghost use Rattle.std.specs.FinMap as map;
ghost use Rattle.std.specs.FinMap.{FinMap, empty, get};
ghost use Rattle.std.specs.FinSet.{FinSet, contains, insert, len};
ghost use Rattle.mig_base.specs.declared.Area.{Area};
ghost use Rattle.mig_base.specs.declared.Prot.{Prot};
ghost use Rattle.mig_base.specs.declared.Prot.TheVariants.{ReadWrite};
ghost use Rattle.mig_base.specs.declared.Run.{Run as PageRun};
ghost use Rattle.foundation.specs.declared.TheConstants.{PAGE_SIZE};
ghost use Rattle.mig_base.specs.declared.TheConstants.{HIGH_PAGE, LOW_PAGE, MAX_CPUS, MAX_PAGES, MAX_RUN};
ghost use Rattle.mig_base.specs.declared.command.Command.{Command};
ghost use Rattle.mig_base.specs.declared.command.Command.TheVariants.{Load};
ghost use Rattle.mig_base.specs.declared.command.Reply.TheVariants.{BadAccess};
ghost use Rattle.mig_base.specs.declared.phase.Received.{Received};
ghost use Rattle.mig_base.specs.Flat.{Memory, reply_of};
ghost use Rattle.mig_base.specs.Pages.{set_range};
ghost use Rattle.mig_base.specs.PageSets.{in_runs, AreRunsFrom};
ghost use Rattle.mig_model.specs.Log.{no_pages};
ghost use Rattle.mig_model.specs.Migration.{World};
ghost use Rattle.mig_model.specs.Promises.{IsReached};
ghost use Rattle.mig_model.specs.Bounds.{IsCpuCount, IsFrame, IsRightAccess};
ghost use Rattle.mig_model.specs.Lengths.{text_len, body_len};
ghost use Rattle.page_stream.specs.Texts.{Version, has_frame, text, HasWholePages, IsEncodable, AreBelow, AreMappedBelow, AreAreasAfter, areas_of, prot_in, runs_of};
ghost use Rattle.page_stream.specs.Flight.{AreCounted, HasGoodFrames};
ghost use Rattle.page_stream.specs.Texts.Version.{One, Two};
ghost use Rattle.mig_model.specs.Wire.{Frame};
ghost use Rattle.mig_model.specs.Wire.Frame.{Advise, Zero, Run, Discard, Package, End, Request, Recv, Done};

/// A text has the length in bytes that the machine counts for its frame, if each page that the frame carries has its 4096 bytes. This
/// holds for every frame in flight, on all three wires, after every list of steps.
pub fn the_length_of_a_text()
    ensures text { (version : Version) (epoch : ℕ) (frame : Frame) →
        has_frame version frame ≡ true → HasWholePages frame →
        length (text version epoch frame) ≡ text_len frame }
    ensures forward { (world : World) → IsReached world → AreCounted world.forward.frames }
    ensures back { (world : World) → IsReached world → AreCounted world.back.frames }
    ensures urgent { (world : World) → IsReached world → AreCounted world.urgent.frames }
{}

/// Every frame in flight is well formed, on each of the three wires, if the guest has a number of processors that a new world may have.
/// Its pages may be mapped, its counts and its epoch fit 32 bits, and its pages have their bytes. A Package has no more pages than may
/// be mapped, and for each processor at most a load or store that can be made. A well-formed frame can be read back from its text,
/// the length of which fits 32 bits, and no memory answers such a load or store with BadAccess.
pub fn frames_have_texts()
    ensures in_flight { (world : World) → IsReached world →
        IsCpuCount (length world.source.guest.cpus) → HasGoodFrames world }
    ensures encodable { (epoch : ℕ) (frame : Frame) → epoch < 2 ^ 32 → IsFrame frame →
        IsEncodable Two epoch frame }
    ensures short { (frame : Frame) → IsFrame frame → text_len frame < 2 ^ 32 }
    ensures accesses { (memory : Memory) (command : Command) → IsRightAccess command →
        reply_of memory command ≢ BadAccess }
{}

/// A set of pages is written as its maximal runs. They cover exactly the pages of the set, ascend, none is empty, and none touches the
/// next. No other list of runs does all this.
pub fn the_runs_of_a_set()
    ensures pages { (set : FinSet nat_cmp) (page : ℕ) → AreBelow set →
        in_runs (runs_of set) page ≡ contains set page }
    ensures ordered { (set : FinSet nat_cmp) → AreRunsFrom 0 (runs_of set) }
    ensures only { (set : FinSet nat_cmp) (runs : List PageRun) → AreBelow set →
        AreRunsFrom 0 runs → ((page : ℕ) → in_runs runs page ≡ contains set page) →
        runs ≡ runs_of set }
{}

/// Mapped pages are written as areas, their maximal runs of one protection. The areas ascend, none is empty, and none touches the next
/// with the same protection. They give each page its protection, and no other list of this kind does.
pub fn the_areas_of_a_map()
    ensures pages { (areas : FinMap nat_cmp Prot) (page : ℕ) → AreMappedBelow areas →
        prot_in (areas_of areas) page ≡ get areas page }
    ensures ordered { (areas : FinMap nat_cmp Prot) → AreAreasAfter 0 None (areas_of areas) }
    ensures only { (areas : FinMap nat_cmp Prot) (list : List Area) → AreMappedBelow areas →
        AreAreasAfter 0 None list → ((page : ℕ) → prot_in list page ≡ get areas page) →
        list ≡ areas_of areas }
{}

/// A text determines its version, its epoch and its frame, whatever bytes follow: no two frames have the same text, and no text is a
/// proper prefix of another.
pub fn one_text()
    ensures version { (v w : Version) (d e : ℕ) (f g : Frame) (s r : List ℕ) → IsEncodable v d f →
        IsEncodable w e g → text v d f ++ s ≡ text w e g ++ r → v ≡ w }
    ensures epoch { (v w : Version) (d e : ℕ) (f g : Frame) (s r : List ℕ) → IsEncodable v d f →
        IsEncodable w e g → text v d f ++ s ≡ text w e g ++ r → d ≡ e }
    ensures frame { (v w : Version) (d e : ℕ) (f g : Frame) (s r : List ℕ) → IsEncodable v d f →
        IsEncodable w e g → text v d f ++ s ≡ text w e g ++ r → f ≡ g }
    ensures rest { (v w : Version) (d e : ℕ) (f g : Frame) (s r : List ℕ) → IsEncodable v d f →
        IsEncodable w e g → text v d f ++ s ≡ text w e g ++ r → s ≡ r }
{}

/// The longest bodies, in bytes, of frames with no more pages and processors than they may have. A set has at most one run for each of
/// its pages, and a map at most one area. A Discard has at most one run for every second page of the address space.
pub fn the_greatest_lengths()
    ensures discard { (pages : FinSet nat_cmp) →
        ((page : ℕ) → contains pages page ≡ true → LOW_PAGE ≤ page) →
        body_len (Discard pages) ≤ 4 + 4 * (HIGH_PAGE - LOW_PAGE) }
    ensures package { (areas : FinMap nat_cmp Prot) (owed : FinSet nat_cmp)
        (commands : List (Option Command)) → AreMappedBelow areas → AreBelow owed →
        map.len areas ≤ MAX_PAGES → len owed ≤ MAX_PAGES → length commands ≤ MAX_CPUS →
        body_len (Package areas owed commands) ≤ 9 + 17 * MAX_PAGES + 18 * MAX_CPUS }
    ensures run { (first : ℕ) (pages : List (List ℕ)) → length pages ≤ MAX_RUN →
        body_len (Run first pages) ≤ 8 + PAGE_SIZE * MAX_RUN }
    ensures recv { (state : Received) (owed : FinSet nat_cmp) → AreBelow owed →
        len owed ≤ MAX_PAGES → body_len (Recv state owed) ≤ 5 + 8 * MAX_PAGES }
{}

/// Some texts, byte by byte.
#[tactic(auto, unfolding(crate::specs::Texts::text))]
pub fn some_texts()
    ensures advise { text Two 1 Advise ≡ 2 ∷ 1 ∷ 0 ∷ 0 ∷ 0 ∷ 0 ∷ 0 ∷ 1 ∷ 0 ∷ 0 ∷ 0 ∷ 0 ∷ [] }
    ensures advise_one { text One 1 Advise ≡ 1 ∷ 1 ∷ 0 ∷ 0 ∷ 0 ∷ 0 ∷ 0 ∷ 1 ∷ 0 ∷ 0 ∷ 0 ∷ 0 ∷ [] }
    ensures zero { text One 1 (Zero 0x10) ≡
        1 ∷ 3 ∷ 0 ∷ 0 ∷ 0 ∷ 0 ∷ 0 ∷ 1 ∷ 0 ∷ 0 ∷ 0 ∷ 4 ∷ 0 ∷ 0 ∷ 0 ∷ 0x10 ∷ [] }
    ensures discard { text One 1 (Discard (insert no_pages 0x11)) ≡
        1 ∷ 4 ∷ 0 ∷ 0 ∷ 0 ∷ 0 ∷ 0 ∷ 1 ∷ 0 ∷ 0 ∷ 0 ∷ 12 ∷ 0 ∷ 0 ∷ 0 ∷ 1 ∷ 0 ∷ 0 ∷ 0 ∷ 0x11 ∷ 0 ∷ 0 ∷
        0 ∷ 1 ∷ [] }
    ensures package { text One 1
        (Package (set_range empty 0x10 2 ReadWrite) (insert no_pages 0x11) (None ∷
        Some (Load 0x11000 8) ∷ [])) ≡
        1 ∷ 5 ∷ 0 ∷ 0 ∷ 0 ∷ 0 ∷ 0 ∷ 1 ∷ 0 ∷ 0 ∷ 0 ∷ 37 ∷ 0 ∷ 0 ∷ 0 ∷ 1 ∷ 0 ∷ 0 ∷ 0 ∷ 0x10 ∷ 0 ∷ 0 ∷
        0 ∷ 2 ∷ 2 ∷ 0 ∷ 0 ∷ 0 ∷ 1 ∷ 0 ∷ 0 ∷ 0 ∷ 0x11 ∷ 0 ∷ 0 ∷ 0 ∷ 1 ∷
        2 ∷ 0 ∷ 1 ∷ 0 ∷ 0 ∷ 0 ∷ 0 ∷ 0 ∷ 1 ∷ 0x10 ∷ 0 ∷ 8 ∷ [] }
    ensures end { text One 1 (End 0) ≡
        1 ∷ 6 ∷ 0 ∷ 0 ∷ 0 ∷ 0 ∷ 0 ∷ 1 ∷ 0 ∷ 0 ∷ 0 ∷ 4 ∷ 0 ∷ 0 ∷ 0 ∷ 0 ∷ [] }
    ensures request { text One 2 (Request 0x10) ≡
        1 ∷ 0x81 ∷ 0 ∷ 0 ∷ 0 ∷ 0 ∷ 0 ∷ 2 ∷ 0 ∷ 0 ∷ 0 ∷ 4 ∷ 0 ∷ 0 ∷ 0 ∷ 0x10 ∷ [] }
    ensures recv { text One 2 (Recv Received.Running no_pages) ≡
        1 ∷ 0x82 ∷ 0 ∷ 0 ∷ 0 ∷ 0 ∷ 0 ∷ 2 ∷ 0 ∷ 0 ∷ 0 ∷ 5 ∷ 1 ∷ 0 ∷ 0 ∷ 0 ∷ 0 ∷ [] }
    ensures done { text One 1 Done ≡ 1 ∷ 0x83 ∷ 0 ∷ 0 ∷ 0 ∷ 0 ∷ 0 ∷ 1 ∷ 0 ∷ 0 ∷ 0 ∷ 0 ∷ [] }
    ensures run { (a b : List ℕ) → HasWholePages (Run 0x10 (a ∷ b ∷ [])) →
        text Two 1 (Run 0x10 (a ∷ b ∷ [])) ≡
        2 ∷ 8 ∷ 0 ∷ 0 ∷ 0 ∷ 0 ∷ 0 ∷ 1 ∷ 0 ∷ 0 ∷ 0x20 ∷ 0x08 ∷ 0 ∷ 0 ∷ 0 ∷ 0x10 ∷ 0 ∷ 0 ∷ 0 ∷ 2 ∷
        (a ++ b) }
{}
