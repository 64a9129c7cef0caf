//! Reports of how far a migration has come.

ghost use Rattle.std.specs.Prelude.{◌≡◌, ◌++◌, OnOk, OnErr, Some, string_bytes};
ghost use Rattle.grammar.specs.Printed.{phase_text, sent_text, handled_text, progress_text, progress_line};

use mig_base::{NoMemory, WorldPhase};
use std::fmt;

/// The room that is reserved for a line, in bytes: no line is longer.
const LINE: usize = 192;

/// How far a migration has come.
#[derive(Clone, Copy, Debug, PartialEq, Eq)]
pub struct Progress {
    pub phase: WorldPhase,
    /// Rounds of pre-copy made.
    pub rounds: u32,
    /// Pages that the source has sent.
    pub sent: u64,
    /// Pages that the destination is still owed.
    pub left: u32,
    /// Copies that the destination has installed.
    pub installed: u64,
    /// Copies that it has dropped.
    pub dropped: u64,
    /// Page faults that the handler of either node has read.
    pub faults: u64,
}

/// The name of a phase.
fn name_of(phase: WorldPhase) -> &'static str
    ensures { result.now ≡ phase_text phase }
{
    match phase {
        WorldPhase::Idle => "idle",
        WorldPhase::Precopy => "precopy",
        WorldPhase::Switching => "switching",
        WorldPhase::Postcopy => "postcopy",
        WorldPhase::Complete => "complete",
    }
}

/// The source's part of a report: rounds, pages sent, and pages left.
#[derive(Clone, Copy)]
struct SentText {
    rounds: u32,
    sent: u64,
    left: u32,
}

impl fmt::Display for SentText {
    ghost output = { λ x. Some (sent_text x.rounds x.sent x.left) };

    #[tactic(auto, unfolding(crate::specs::Printed::sent_text))]
    fn fmt<W: fmt::Write>(&self, f: &mut fmt::Formatter<W>) -> fmt::Result {
        let rounds = self.rounds;
        let sent = self.sent;
        let left = self.left;
        write!(f, "rounds {rounds} sent {sent} left {left}")
    }
}

/// The other part of a report: copies installed, copies dropped, and page faults.
#[derive(Clone, Copy)]
struct HandledText {
    installed: u64,
    dropped: u64,
    faults: u64,
}

impl fmt::Display for HandledText {
    ghost output = { λ x. Some (handled_text x.installed x.dropped x.faults) };

    #[tactic(auto, unfolding(crate::specs::Printed::handled_text))]
    fn fmt<W: fmt::Write>(&self, f: &mut fmt::Formatter<W>) -> fmt::Result {
        let installed = self.installed;
        let dropped = self.dropped;
        let faults = self.faults;
        write!(f, "installed {installed} dropped {dropped} faults {faults}")
    }
}

impl fmt::Display for Progress {
    ghost output = { λ x. Some (progress_text x) };

    fn fmt<W: fmt::Write>(&self, f: &mut fmt::Formatter<W>) -> fmt::Result {
        let phase = name_of(self.phase);
        let sent = SentText {
            rounds: self.rounds,
            sent: self.sent,
            left: self.left,
        };
        let handled = HandledText {
            installed: self.installed,
            dropped: self.dropped,
            faults: self.faults,
        };
        write!(f, "progress phase {phase} {sent} {handled}")
    }
}

/// Appends the line of a report, with its line feed, to a text. `NoMemory` leaves the text as it was.
#[tactic(auto, unfolding(crate::specs::Printed::progress_line))]
pub fn print_progress(text: &mut String, progress: Progress) -> Result<(), NoMemory>
    ensures ok { OnOk result (string_bytes text.new ≡
        string_bytes text.old ++ progress_line progress) }
    ensures err { OnErr result (string_bytes text.new ≡ string_bytes text.old) }
{
    let mut line = String::with_capacity(*text.allocator(), LINE)?;
    write!(line, "{progress}\n")?;
    text.push_str(&line)?;
    Ok(())
}
