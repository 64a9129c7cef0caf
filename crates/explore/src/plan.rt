//! What the caller of an exploration chooses.

ghost use Rattle.std.specs.Prelude.{◌≡◌, ◌++◌, Some};
ghost use Rattle.explore.specs.Plans.{profile_name, flag_text, numbers_text, guest_text, flags_text, plan_text};

use std::fmt;

/// The version that the first line of a script names.
pub const VERSION: &str = "0.1.0";

/// Of which steps a script has more.
#[derive(Clone, Copy, Debug, PartialEq, Eq)]
pub enum Profile {
    /// Loads, stores and map calls; no migration is started.
    Commands,
    /// Rounds, sends and faults at the source; the switch comes late or not at all.
    Precopy,
    /// An early switch, faults at owed pages, and pushes.
    Postcopy,
    /// Map calls that move, unmap and clear pages, also while they are owed and in flight.
    Moves,
    /// Lost channels, and resumptions.
    Breaks,
    /// Requests, and pushes on the urgent wire.
    Urgent,
    /// Deliveries of a few bytes.
    Bytes,
    /// Several pages in one frame.
    Runs,
    /// Some of each.
    All,
}

impl Profile {
    /// The profiles, in the order in which help lists them.
    pub const ALL: [Profile; 9] = [
        Profile::Commands,
        Profile::Precopy,
        Profile::Postcopy,
        Profile::Moves,
        Profile::Breaks,
        Profile::Urgent,
        Profile::Bytes,
        Profile::Runs,
        Profile::All,
    ];

    /// The name on the command line.
    pub fn name(self) -> &'static str
        ensures { result.now ≡ profile_name self }
    {
        match self {
            Profile::Commands => "commands",
            Profile::Precopy => "precopy",
            Profile::Postcopy => "postcopy",
            Profile::Moves => "moves",
            Profile::Breaks => "breaks",
            Profile::Urgent => "urgent",
            Profile::Bytes => "bytes",
            Profile::Runs => "runs",
            Profile::All => "all",
        }
    }

    /// The profile of this name.
    pub fn named(name: &str) -> Option<Profile> {
        for profile in Profile::ALL {
            if profile.name() == name {
                return Some(profile);
            }
        }
        None
    }
}

/// An exploration. Its text is that of the arguments that ask for it.
#[derive(Clone, Copy)]
pub struct Plan {
    /// The seed of the draws.
    pub seed: u64,
    /// The number of lines after the first, which is a comment.
    pub steps: u32,
    /// The processors of the guest, 1 to 16.
    pub cpus: u8,
    pub profile: Profile,
    /// The number of pages from which commands draw their addresses, 1 to 4,096. They lie from 0x10000 on.
    pub pages: u16,
    /// Whether lines that complete the migration follow the steps, and a sweep follows these.
    pub finish: bool,
    /// Whether a sweep follows the steps: loads of what was stored, with the steps that these loads need.
    pub sweep: bool,
    /// Whether ` => ` and the line that `postmig run` would print follow each line.
    pub answers: bool,
}

/// A word that is there or not.
fn flag(is: bool, word: &'static str) -> &'static str
    ensures { result.now ≡ flag_text is word.now }
{
    if is { word } else { "" }
}

/// The options with the seed, the number of lines and that of processors.
#[derive(Clone, Copy)]
struct NumbersText {
    seed: u64,
    lines: u32,
    cpus: u8,
}

impl fmt::Display for NumbersText {
    ghost output = { λ x. Some (numbers_text x.seed x.lines x.cpus) };

    #[tactic(auto, unfolding(crate::specs::Plans::numbers_text))]
    fn fmt<W: fmt::Write>(&self, f: &mut fmt::Formatter<W>) -> fmt::Result {
        let seed = self.seed;
        let lines = self.lines;
        let cpus = self.cpus;
        write!(f, "--seed {seed} --lines {lines} --cpus {cpus}")
    }
}

/// The options with the profile and the number of pages.
#[derive(Clone, Copy)]
struct GuestText {
    profile: Profile,
    pages: u16,
}

impl fmt::Display for GuestText {
    ghost output = { λ x. Some (guest_text x.profile x.pages) };

    #[tactic(auto, unfolding(crate::specs::Plans::guest_text))]
    fn fmt<W: fmt::Write>(&self, f: &mut fmt::Formatter<W>) -> fmt::Result {
        let profile = self.profile.name();
        let pages = self.pages;
        write!(f, "--profile {profile} --pages {pages}")
    }
}

/// The options without a value.
#[derive(Clone, Copy)]
struct FlagsText {
    finish: bool,
    sweep: bool,
    answers: bool,
}

impl fmt::Display for FlagsText {
    ghost output = { λ x. Some (flags_text x.finish x.sweep x.answers) };

    #[tactic(auto, unfolding(crate::specs::Plans::flags_text))]
    fn fmt<W: fmt::Write>(&self, f: &mut fmt::Formatter<W>) -> fmt::Result {
        let finish = flag(self.finish, " --finish");
        let sweep = flag(self.sweep, " --sweep");
        let answers = flag(self.answers, " --answers");
        write!(f, "{finish}{sweep}{answers}")
    }
}

impl fmt::Display for Plan {
    ghost output = { λ x. Some (plan_text x) };

    #[tactic(auto, unfolding(crate::specs::Plans::plan_text))]
    fn fmt<W: fmt::Write>(&self, f: &mut fmt::Formatter<W>) -> fmt::Result {
        let numbers = NumbersText {
            seed: self.seed,
            lines: self.steps,
            cpus: self.cpus,
        };
        let guest = GuestText {
            profile: self.profile,
            pages: self.pages,
        };
        let flags = FlagsText {
            finish: self.finish,
            sweep: self.sweep,
            answers: self.answers,
        };
        write!(f, "{numbers} {guest}{flags}")
    }
}
