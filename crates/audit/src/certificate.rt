//! Certificates: a run that was found is handed to the checker of `kernel_rules`, which is proved.

ghost use Rattle.std.specs.Prelude.{◌≡◌, true, option_map, List, None, IfNone, IfOk, IfSome};
ghost use Rattle.kernel_rules.specs.Certified.{certified, fresh_place, moved_all, IsReached};
ghost use Rattle.kernel_rules.specs.declared.run.Move.{Move as MoveOf};
ghost use Rattle.kernel_rules.specs.Held.{AreTables};
ghost use Rattle.kernel_rules.specs.Worlds.{if_made, place_of};
ghost use Rattle.audit.specs.Certificates.{IsCertificate, MayBe, NeedsWork, certificate_from, totals_at_end};

use crate::judging::JudgedLog;
use crate::moves::Moves;
use crate::work::Unjudged;
use call_log::log::Log;
use call_log::log_call::LogCall;
use foundation::{NoMemory, PAGE_SIZE};
use kernel_rules::certify::WorldTable;
use log_entries::{EntryReader, EntryStore};
use std::alloc::Global;
use std::fmt;
use uffd_log::{Answer, Call};

/// What the kernel has at the end of a run.
#[derive(Clone, Copy)]
pub(crate) struct Totals {
    /// How many pages are owed.
    pub(crate) owed: usize,
    /// How many calls stopped at a page that the log had put.
    pub(crate) twice: usize,
}

/// Whether a run is certified.
#[derive(Clone, Copy)]
pub(crate) enum Certificate {
    /// The checker took the run.
    Certified(Totals),
    Missing(Missing),
}

/// Why a run is not certified.
#[derive(Clone, Copy)]
pub(crate) enum Missing {
    /// Nothing of the log could be judged.
    Nothing(Unjudged),
    /// No run was found.
    NoRun,
    /// Lines are missing in the log.
    Lost,
    /// Pages are of another size than the rules'.
    PageSize(u64),
    /// The call of this line is not followed.
    Call { line: u32, word: &'static str },
    /// The checker takes no such run.
    Refused,
    /// The checker's kernel has other findings.
    Differs,
}

impl fmt::Display for Missing {
    fn fmt<W: fmt::Write>(&self, f: &mut fmt::Formatter<W>) -> fmt::Result {
        match *self {
            Missing::Nothing(why) => write!(f, "nothing was judged: {why}"),
            Missing::NoRun => write!(f, "no run was found"),
            Missing::Lost => write!(f, "lines of the log were lost"),
            Missing::PageSize(size) => write!(f, "pages of {size} bytes are not followed"),
            Missing::Call { line, word } => write!(f, "{word} of line {line} is not followed"),
            Missing::Refused => write!(f, "the checker does not follow the run"),
            Missing::Differs => write!(f, "the checker finds other pages owed or put twice"),
        }
    }
}

/// Whether the checker follows a call, as far as the call alone shows.
fn is_followed(call: &LogCall) -> bool {
    if call.answer == Some(Answer::Interrupted) {
        return true;
    }
    // Of an object that is not judged the registration says why.
    let is_api = matches!(call.call, Call::Api { .. });
    is_api || call.answer.is_none() || call.has_effect()
}

/// The first call that is not followed.
fn not_followed(log: &Log) -> Option<Missing> {
    for place in 0..log.count() {
        let place = u32::try_from(place).ok()?;
        if !is_followed(&log.call(place)?) {
            return refused_call(log, place);
        }
    }
    None
}

/// That the call at a place is not followed.
fn refused_call(log: &Log, place: u32) -> Option<Missing> {
    let call = log.call(place)?;
    Some(Missing::Call {
        line: call.begin,
        word: call.word(),
    })
}

/// Why a run cannot be certified, as far as the log alone shows.
fn missing_of(judged: &JudgedLog, entries: &EntryReader) -> Option<Missing>
    ensures whole { IfNone result (entries.now.whole ≡ true) }
    ensures work { IfNone result (judged.now.nothing ≡ None) }
{
    if !judged.has_run() {
        return Some(Missing::NoRun);
    }
    if !entries.whole {
        return Some(Missing::Lost);
    }
    if let Some(nothing) = judged.nothing {
        return Some(Missing::Nothing(nothing));
    }
    let size = judged.size.0;
    if size != PAGE_SIZE {
        return Some(Missing::PageSize(size));
    }
    not_followed(&judged.log)
}

/// What the search found.
fn totals_of(judged: &JudgedLog) -> Totals {
    Totals {
        owed: judged.notes.owed_count,
        twice: judged.notes.twice.len(),
    }
}

/// Makes moves until none is left. False where the checker refuses one.
fn make_all(
    world: &mut WorldTable,
    entries: &EntryStore,
    moves: &mut Moves,
) -> Result<bool, NoMemory>
    requires tables { AreTables world.old.kernel }
    requires reached { IsReached entries.now (place_of world.old) }
    ensures tables { AreTables world.new.kernel }
    ensures run { IfOk result (λ ok. (run : List MoveOf) ×
        (moved_all entries.now fresh_place run ≡ if_made ok (place_of world.new))) }
{
    for _ in 0..moves.most(entries) {
        let Some(step) = moves.next(entries) else {
            return Ok(true);
        };
        let seen = entries.get(world.seen_at(step))?;
        if !world.step(seen.as_ref(), step)? {
            return Ok(false);
        }
    }
    Ok(true)
}

/// Has a run checked, move by move, and the kernel at its end judged as the log ends.
fn check(alloc: Global, entries: &EntryStore, moves: &mut Moves) -> Result<Option<Totals>, NoMemory>
    ensures run { IfOk result (λ found. IfSome found (MayBe entries.now)) }
    ensures exact { IfOk result (λ found. (run : List MoveOf) ×
        (found ≡ option_map totals_at_end (certified entries.now run))) }
{
    let mut world = WorldTable::new(alloc);
    if !make_all(&mut world, entries, moves)? {
        return Ok(None);
    }
    let count = entries.len();
    if world.next != count {
        return Ok(None);
    }
    let mut kernel = world.kernel;
    kernel.finish()?;
    Ok(Some(Totals {
        owed: kernel.owed.len(),
        twice: kernel.twice.len(),
    }))
}

/// The certificate of a run of which the checker has found these numbers, if it took the run, and the search those.
fn decide(found: Option<Totals>, wanted: Totals) -> Certificate
    ensures { result ≡ certificate_from found wanted }
{
    match found {
        Some(found) if found.owed == wanted.owed && found.twice == wanted.twice =>
            Certificate::Certified(found),
        Some(_) => Certificate::Missing(Missing::Differs),
        None => Certificate::Missing(Missing::Refused),
    }
}

/// Has the run that was found checked.
pub(crate) fn certificate_of(
    alloc: Global,
    judged: JudgedLog,
    entries: &EntryReader,
) -> Result<Certificate, NoMemory>
    ensures is { IfOk result (IsCertificate entries.now) }
    ensures work { IfOk result (λ made. NeedsWork made judged.nothing) }
{
    if let Some(missing) = missing_of(&judged, entries) {
        return Ok(Certificate::Missing(missing));
    }
    let wanted = totals_of(&judged);
    let mut moves = Moves::new(alloc, judged, &entries.entries)?;
    let found = check(alloc, &entries.entries, &mut moves)?;
    Ok(decide(found, wanted))
}
