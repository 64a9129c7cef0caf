//! A run of a log: the lines of the log in their order, with steps put in between, each of which the rules of a kernel allow.

ghost use Rattle.std.specs.Prelude.{◌≡◌, ◌==◌, ◌&&◌, ◌++◌, ◌∷◌, [], map, IfOk, OnOk, IfSome, option_map};
ghost use Rattle.kernel_rules.specs.Certified.{begun_at, certified, effected, ended_at, entered, find_of, fresh_place, is_ended_by, is_with, lined, moved, moved_all, moved_by, next_taken, others_than, protected_by, seen_at, IsCertified};
ghost use Rattle.kernel_rules.specs.Runs.{event_of, is_still, outcome_of, IsClean};
ghost use Rattle.kernel_rules.specs.MapCalls.{may_return, returned};
ghost use Rattle.kernel_rules.specs.State.{allowed};
ghost use Rattle.kernel_rules.specs.Held.{kernel_of, AreTables};
ghost use Rattle.kernel_rules.specs.Worlds.{event_seen, if_made, left_of, outcome_seen, place_of, rule_of};

use crate::kernel_table::KernelTable;
use crate::run::{Ending, Entry, Made, Move};
use foundation::NoMemory;
use std::alloc::Global;
use uffd_log::Answer;

/// A call that has begun, and the entry with its ending once it has taken effect, with the number of messages that it has still to take.
#[derive(Clone, Copy)]
pub struct BegunCall {
    pub made: Made,
    pub at: Option<usize>,
    pub left: usize,
}

/// How a call takes effect: at one time, refused since the space is changing, or as a read that will take its messages one after another.
#[derive(Clone, Copy)]
pub enum Way {
    Whole,
    Refused,
    Begun,
}

impl Way {
    /// How many messages a call has left then.
    fn left(self, ending: &Ending) -> usize
        ensures { result ≡ left_of self (outcome_of ending.now) }
    {
        match self {
            Way::Whole | Way::Refused => 0,
            Way::Begun => ending.messages.len(),
        }
    }
}

/// A checker of a run: a kernel, the calls that have begun and not ended, and the next entry of the log.
#[derive(Drop)]
pub struct WorldTable {
    pub kernel: KernelTable,
    pub begun: Vec<BegunCall>,
    pub next: usize,
}

/// A call that has begun, by its number.
fn find_begun(begun: &[BegunCall], key: u32) -> Option<BegunCall>
    ensures { result ≡ find_of begun.now key }
{
    for one in begun {
        if one.made.key == key {
            return Some(*one);
        }
    }
    None
}

/// Takes a call away.
fn remove_begun(begun: &mut Vec<BegunCall>, key: u32)
    ensures { begun.new.items ≡ others_than key begun.old.items }
{
    begun.retain(|one| one.made.key != key);
}

/// Whether a call has taken effect with the ending in an entry.
fn is_with(one: BegunCall, at: usize) -> bool
    ensures { result ≡ is_with one.at at }
{
    match one.at {
        Some(other) => other == at,
        None => false,
    }
}

/// Whether a call has taken effect with the ending of the entry where it ends.
fn fits(one: BegunCall, answer: Answer, next: usize) -> bool
    ensures { result ≡ is_ended_by one.at answer next }
{
    match answer {
        Answer::Interrupted => one.at.is_none(),
        _ => is_with(one, next),
    }
}

/// Whether a call has read nothing if it was interrupted.
fn is_still(ending: &Ending) -> bool
    ensures { result ≡ is_still (outcome_of ending.now) }
{
    match ending.answer {
        Answer::Interrupted => ending.messages.is_empty() && ending.runs.is_empty(),
        _ => true,
    }
}

/// The ending of an entry, if a call ends there.
fn ending_of(seen: Option<&Entry>) -> Option<&Ending>
    ensures { option_map (λ ending. outcome_of ending.now) result ≡
        outcome_seen seen.entry }
{
    match seen {
        Some(Entry::Ends { ending, .. }) => Some(ending),
        _ => None,
    }
}

impl WorldTable {
    /// Nothing has happened.
    pub fn new(alloc: Global) -> WorldTable
        ensures tables { AreTables result.kernel }
        ensures fresh { place_of result ≡ fresh_place }
    {
        WorldTable {
            kernel: KernelTable::new(alloc),
            begun: Vec::new(alloc),
            next: 0,
        }
    }

    /// Adds a call that has begun, with the entry of its ending once it has taken effect.
    fn add_begun(&mut self, made: Made, at: Option<usize>, left: usize) -> Result<(), NoMemory>
        ensures added { OnOk result (self.new.begun.items ≡
            self.old.begun.items ++ record { made = made; at = at; left = left } ∷ []) }
        ensures same { self.new ≡ record self.old { begun = self.new.begun } }
    {
        match self.begun.push(BegunCall { made, at, left }) {
            Ok(()) => Ok(()),
            Err(_) => Err(NoMemory),
        }
    }

    /// A call begins, if none of its number is under way.
    fn begin(&mut self, made: Made) -> Result<bool, NoMemory>
        requires { AreTables self.old.kernel }
        ensures tables { AreTables self.new.kernel }
        ensures next { self.new.next ≡ self.old.next }
        ensures step { IfOk result (λ ok.
            begun_at (place_of self.old) made ≡ if_made ok (place_of self.new)) }
    {
        if find_begun(&self.begun, made.key).is_some() {
            return Ok(false);
        }
        self.add_begun(made, None, 0)?;
        Ok(true)
    }

    /// Whether a call that has begun may end: it has told all, and has taken effect so, and all its messages.
    fn may_end(&self, one: BegunCall, key: u32, answer: Answer) -> bool
        ensures { result ≡ (may_return (kernel_of self.now.kernel) key
            && (is_ended_by one.at answer self.now.next && one.left == 0)) }
    {
        self.kernel.may_return(u64::from(key)) && fits(one, answer, self.next) && one.left == 0
    }

    /// A call is no longer under way in the kernel.
    fn returned(&mut self, key: u32)
        requires { AreTables self.old.kernel }
        ensures tables { AreTables self.new.kernel }
        ensures over { kernel_of self.new.kernel ≡ returned (kernel_of self.old.kernel) key }
        ensures same { self.new ≡ record self.old { kernel = self.new.kernel } }
    {
        self.kernel.returned(u64::from(key));
    }

    /// A call ends, if it has begun and has taken effect so.
    fn end(&mut self, key: u32, answer: Answer) -> bool
        requires { AreTables self.old.kernel }
        ensures tables { AreTables self.new.kernel }
        ensures next { self.new.next ≡ self.old.next }
        ensures step { ended_at (place_of self.old) key answer (find_of self.old.begun.items key) ≡
            if_made result (place_of self.new) }
    {
        let Some(one) = find_begun(&self.begun, key) else {
            return false;
        };
        if !self.may_end(one, key, answer) {
            return false;
        }
        self.returned(key);
        remove_begun(&mut self.begun, key);
        true
    }

    /// The line of an entry.
    fn enter(&mut self, one: &Entry) -> Result<bool, NoMemory>
        requires { AreTables self.old.kernel }
        ensures tables { AreTables self.new.kernel }
        ensures next { self.new.next ≡ self.old.next }
        ensures step { IfOk result (λ ok.
            entered (place_of self.old) (event_of one.now) ≡ if_made ok (place_of self.new)) }
    {
        match one {
            Entry::Begins(made) => self.begin(*made),
            Entry::Ends { key, ending } => Ok(is_still(ending) && self.end(*key, ending.answer)),
        }
    }

    /// The next line of the log.
    fn line(&mut self, seen: Option<&Entry>) -> Result<bool, NoMemory>
        requires { AreTables self.old.kernel }
        ensures tables { AreTables self.new.kernel }
        ensures step { IfOk result (λ ok.
            lined (place_of self.old) (event_seen seen.entry) ≡
            if_made ok (place_of self.new)) }
    {
        let Some(one) = seen else {
            return Ok(false);
        };
        if !self.enter(one)? {
            return Ok(false);
        }
        // No memory holds a log with more entries than this.
        let Some(next) = self.next.checked_add(1) else {
            return Err(NoMemory);
        };
        self.next = next;
        Ok(true)
    }

    /// A call has taken effect: it stays begun, with its entry.
    fn note_effect(&mut self, key: u32, made: Made, at: usize, left: usize) -> Result<(), NoMemory>
        ensures noted { OnOk result (self.new.begun.items ≡
            others_than key self.old.begun.items
            ++ record { made = made; at = Some at; left = left } ∷ []) }
        ensures same { self.new ≡ record self.old { begun = self.new.begun } }
    {
        remove_begun(&mut self.begun, key);
        self.add_begun(made, Some(at), left)
    }

    /// A call takes effect by a rule.
    fn apply(&mut self, made: Made, ending: &Ending, way: Way) -> Result<bool, NoMemory>
        requires { AreTables self.old.kernel }
        ensures tables { AreTables self.new.kernel }
        ensures same { self.new ≡ record self.old { kernel = self.new.kernel } }
        ensures step { IfOk result (λ ok.
            rule_of way (kernel_of self.old.kernel) made (outcome_of ending.now) ≡
            allowed ok (kernel_of self.new.kernel)) }
    {
        match way {
            Way::Whole => self.kernel.takes(made, ending),
            Way::Refused => self.kernel.refuses(made, ending),
            Way::Begun => Ok(self.kernel.may_start(made, ending)),
        }
    }

    /// A call takes effect with the ending in an entry, if it has begun and has not taken effect.
    fn effect(
        &mut self,
        seen: Option<&Entry>,
        key: u32,
        at: usize,
        way: Way,
    ) -> Result<bool, NoMemory>
        requires { AreTables self.old.kernel }
        ensures tables { AreTables self.new.kernel }
        ensures step { IfOk result (λ ok.
            effected (rule_of way) (left_of way) (place_of self.old) key at
            (find_of self.old.begun.items key) (outcome_seen seen.entry) ≡
            if_made ok (place_of self.new)) }
    {
        let Some(one) = find_begun(&self.begun, key) else {
            return Ok(false);
        };
        let Some(ending) = ending_of(seen) else {
            return Ok(false);
        };
        if one.at.is_some() {
            return Ok(false);
        }
        if !self.apply(one.made, ending, way)? {
            return Ok(false);
        }
        self.note_effect(key, one.made, at, way.left(ending))?;
        Ok(true)
    }

    /// A read that has begun to take the messages of an entry takes the next.
    fn next(&mut self, seen: Option<&Entry>, key: u32, at: usize) -> Result<bool, NoMemory>
        requires { AreTables self.old.kernel }
        ensures tables { AreTables self.new.kernel }
        ensures step { IfOk result (λ ok.
            next_taken (place_of self.old) key at (find_of self.old.begun.items key)
            (outcome_seen seen.entry) ≡ if_made ok (place_of self.new)) }
    {
        let Some(one) = find_begun(&self.begun, key) else {
            return Ok(false);
        };
        let Some(ending) = ending_of(seen) else {
            return Ok(false);
        };
        if !is_with(one, at) || !self.kernel.takes_next(one.made, one.left, ending)? {
            return Ok(false);
        }
        self.note_effect(key, one.made, at, one.left.saturating_sub(1))?;
        Ok(true)
    }

    /// A UFFDIO_WRITEPROTECT that has begun protects a page.
    fn protects(&mut self, key: u32, page: u64) -> Result<bool, NoMemory>
        requires { AreTables self.old.kernel }
        ensures tables { AreTables self.new.kernel }
        ensures same { self.new ≡ record self.old { kernel = self.new.kernel } }
        ensures step { IfOk result (λ ok.
            protected_by (kernel_of self.old.kernel) (find_of self.old.begun.items key) page ≡
            allowed ok (kernel_of self.new.kernel)) }
    {
        let Some(one) = find_begun(&self.begun, key) else {
            return Ok(false);
        };
        self.kernel.protects_page(one.made, one.at.is_some(), page)
    }

    /// The place of the entry that a move looks at: that of its ending where a call takes effect, else the next one.
    pub fn seen_at(&self, step: Move) -> usize
        ensures { result ≡ seen_at self.now.next step }
    {
        match step {
            Move::Effect { at, .. } | Move::Refuses { at, .. } => at,
            Move::Starts { at, .. } | Move::Reads { at, .. } => at,
            _ => self.next,
        }
    }

    /// Makes the next move of a run of the log; `seen` is the entry of the log at `seen_at`, if there is one. False where no rule allows the
    /// move. After `NoMemory`, or then, a table is not to be used.
    pub fn step(&mut self, seen: Option<&Entry>, step: Move) -> Result<bool, NoMemory>
        requires { AreTables self.old.kernel }
        ensures tables { AreTables self.new.kernel }
        ensures step { IfOk result (λ ok.
            moved_by (event_seen seen.entry) (place_of self.old) step ≡
            if_made ok (place_of self.new)) }
    {
        match step {
            Move::Line => self.line(seen),
            Move::Effect { key, at } => self.effect(seen, key, at, Way::Whole),
            Move::Refuses { key, at } => self.effect(seen, key, at, Way::Refused),
            Move::Starts { key, at } => self.effect(seen, key, at, Way::Begun),
            Move::Reads { key, at } => self.next(seen, key, at),
            Move::Sees {
                thread,
                object,
                page,
                flags,
            } => self.kernel.sees(thread, object, page, flags),
            Move::Queues { thread } => self.kernel.queues(thread),
            Move::Leaves { thread } => self.kernel.leaves(thread),
            Move::Tells { key } => self.kernel.tells(u64::from(key)),
            Move::Clears { key } => self.kernel.clears(u64::from(key)),
            Move::Drops { object, page } => self.kernel.drops(object, page),
            Move::Protects { key, page } => self.protects(key, page),
        }
    }

    /// Makes a move of a run of the log.
    fn step_in(&mut self, log: &[Entry], step: Move) -> Result<bool, NoMemory>
        requires { AreTables self.old.kernel }
        ensures tables { AreTables self.new.kernel }
        ensures step { IfOk result (λ ok.
            moved (map event_of log.now) (place_of self.old) step ≡
            if_made ok (place_of self.new)) }
    {
        let seen = log.get(self.seen_at(step));
        self.step(seen, step)
    }

    /// The moves of a run. False where one is not made.
    fn steps(&mut self, log: &[Entry], run: &[Move]) -> Result<bool, NoMemory>
        requires { AreTables self.old.kernel }
        ensures tables { AreTables self.new.kernel }
        ensures steps { IfOk result (λ ok.
            moved_all (map event_of log.now) (place_of self.old) run.now ≡
            if_made ok (place_of self.new)) }
    {
        for step in run {
            if !self.step_in(log, *step)? {
                return Ok(false);
            }
        }
        Ok(true)
    }
}

/// Whether a run is one of the log: it has the lines of the log in their order, so that it keeps the order of calls that do not overlap;
/// each call takes effect once between its begin and its end, with exactly the answer of its end; and the rules of a kernel allow each
/// step, also those that no line shows. Then the kernel at its end is returned, with its findings. `None` says that this run is none,
/// and nothing of other runs. `NoMemory` comes if room is refused.
///
/// A call that never ends in the log may take effect with the ending of any entry.
///
/// Not followed, and so refused, is UFFDIO_MOVE between ranges that overlap.
pub fn certify(alloc: Global, log: &[Entry], run: &[Move]) -> Result<Option<KernelTable>, NoMemory>
    ensures tables { IfOk result (λ found. IfSome found AreTables) }
    ensures run { IfOk result (λ found. IfSome found (λ table.
        IsCertified (map event_of log.now) run.now (kernel_of table))) }
    ensures clean { IfOk result (λ found. IfSome found (λ table.
        IsClean (map event_of log.now) table.differs.items)) }
    ensures exact { IfOk result (λ found.
        option_map kernel_of found ≡ certified (map event_of log.now) run.now) }
{
    let mut world = WorldTable::new(alloc);
    if !world.steps(log, run)? {
        return Ok(None);
    }
    if world.next != log.len() {
        return Ok(None);
    }
    Ok(Some(world.kernel))
}
