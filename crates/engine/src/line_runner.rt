//! Doing one line: carrying out an order of a script on a world, or keeping an entry of a transcript.

ghost use Rattle.std.specs.Prelude.{◌≡◌, ◌<◌, ◌≤◌, ◌++◌, [], Some, None, OnOk, OnErr, IfErr, IfOk, IfSome, IfNone, string_bytes};
ghost use Rattle.std.specs.Io.KnownBytes.{Appends};
ghost use Rattle.engine.specs.declared.fault.RunFault.TheVariants.{WriteFault, NoMemory as OutOfMemory};
ghost use Rattle.grammar.specs.declared.line.Language.TheVariants.{Script as AScript, Transcript as ATranscript};
ghost use Rattle.grammar.specs.declared.line.Line.TheVariants.{Do, Enter};
ghost use Rattle.engine.specs.Script.{entry_lines, reported, Makes, Obeys, MakesOrNot, ObeysOrNot};
ghost use Rattle.engine.specs.Engine.{Running, Keeping, Gathered, coded_gathered, work_of, language_of as language_of_work, kept_entries, run_world, Takes, Made, MakeFault, Leaves, Loses, Front};
ghost use Rattle.mig_model.specs.Migration.{first_world};
ghost use Rattle.engine.specs.Worlds.{progress_in};

use crate::fault::RunFault;
use grammar::parse::parse;
use grammar::{Language, Line, Order, Progress, Token, print_entry, print_line, print_progress};
use mig_base::refusal::Refusal;
use mig_base::schedule::Step;
use mig_base::{Entry, NoMemory};
use std::alloc::Global;
use std::io::Write;
use std::marker::Model;
use world::World;

/// What a run writes.
#[derive(Clone, Copy, Debug, PartialEq, Eq)]
pub enum Mode {
    /// One line for each order: the outcome of its step, or the report that it asks for.
    Lines,
    /// One line for each entry of the transcript, as it is made.
    Transcript,
}

/// What the lines are for.
#[derive(Drop)]
pub enum Job {
    /// Their orders are carried out on a world, and printed as the mode says.
    Run { world: World, mode: Mode },
    /// Their entries are kept.
    Keep { entries: Vec<Entry> },
}

/// Writes all of the bytes. `WriteFault` is returned if a write fails or takes no byte; the first of the bytes may be written then.
pub fn write_out<W: Write>(writer: &mut W, bytes: &[u8]) -> Result<(), RunFault>
    ensures ok { OnOk result (Appends (W.contents writer.old) (W.contents writer.new) bytes.now) }
    ensures fault { IfErr result (λ fault. fault ≡ WriteFault) }
    ensures front { OnErr result (Front bytes.now (W.contents writer.old) (W.contents writer.new)) }
{
    let mut rest = bytes;
    while !rest.is_empty() {
        match writer.write(rest) {
            Ok(0) | Err(_) => return Err(RunFault::WriteFault),
            Ok(taken) => rest = &rest[taken..],
        }
    }
    Ok(())
}

/// Appends the lines of entries to a text.
fn print_entries(text: &mut String, entries: &[Entry]) -> Result<(), NoMemory>
    ensures { OnOk result (string_bytes text.new ≡
        string_bytes text.old ++ entry_lines entries.now) }
{
    for entry in entries {
        print_entry(text, *entry)?;
    }
    Ok(())
}

/// Makes a step, and replaces a text by the mode's output for it.
fn make_step(world: &mut World, mode: Mode, step: Step, text: &mut String) -> Result<(), RunFault>
    ensures ok { OnOk result (Makes mode world.old step world.new (string_bytes text.new)) }
    ensures fault { IfErr result (λ fault. fault ≡ OutOfMemory) }
    ensures lost { OnErr result (MakesOrNot mode world.old step world.new) }
{
    text.clear();
    let count = world.transcript().len();
    let outcome = world.step(step);
    if let Err(Refusal::NoMemory) = outcome {
        return Err(RunFault::NoMemory);
    }
    match mode {
        Mode::Lines => print_line(text, &outcome)?,
        Mode::Transcript => print_entries(text, &world.transcript()[count..])?,
    }
    Ok(())
}

/// How far the migration of a world has come: its phase, the rounds made, the pages sent, the pages still owed (`left`), the copies
/// installed and dropped at the destination, and the page faults of both nodes. It takes no memory.
pub fn progress(world: &World) -> Progress
    ensures { result ≡ progress_in world.now }
{
    let counts = world.counts();
    Progress {
        phase: world.phase(),
        rounds: counts.rounds,
        sent: counts.sent,
        left: world.owed_left(),
        installed: counts.installed,
        dropped: counts.dropped,
        faults: counts.faults,
    }
}

/// Replaces a text by the mode's output for the progress of a world.
fn report_progress(world: &World, mode: Mode, text: &mut String) -> Result<(), RunFault>
    ensures ok { OnOk result (string_bytes text.new ≡ reported mode world.now) }
    ensures fault { IfErr result (λ fault. fault ≡ OutOfMemory) }
{
    text.clear();
    match mode {
        Mode::Lines => print_progress(text, progress(world))?,
        Mode::Transcript => {}
    }
    Ok(())
}

/// Carries out an order, and replaces a text by the mode's output for it. At `NoMemory` nothing changed, or the order was carried out and
/// its output is lost.
pub fn carry_out(
    world: &mut World,
    mode: Mode,
    order: Order,
    text: &mut String,
) -> Result<(), RunFault>
    ensures ok { OnOk result (Obeys mode world.old order world.new (string_bytes text.new)) }
    ensures fault { IfErr result (λ fault. fault ≡ OutOfMemory) }
    ensures lost { OnErr result (ObeysOrNot mode world.old order world.new) }
{
    match order.step(world.epoch()) {
        Some(step) => make_step(world, mode, step, text),
        None => report_progress(world, mode, text),
    }
}

/// Does lines, and gathers their output.
#[derive(Drop)]
pub struct LineRunner {
    job: Job,
    /// The tokens of the last line, kept for their room.
    tokens: Vec<Token>,
    /// The text that was printed last, kept for its room.
    printed: String,
    /// The output that is not written yet.
    output: Vec<u8>,
}

impl Model for LineRunner {
    ghost Value = { Gathered };

    ghost coded = { coded_gathered };

    ghost view = { λ r. record { work = work_of r.job; output = r.output.items } };
}

impl LineRunner {
    /// A runner for the job, without output.
    fn new(alloc: Global, job: Job) -> LineRunner
        ensures work { result.work ≡ work_of job }
        ensures output { result.output ≡ [] }
    {
        LineRunner {
            job,
            tokens: Vec::new(alloc),
            printed: String::new(alloc),
            output: Vec::new(alloc),
        }
    }

    /// A runner that carries out orders on a world.
    pub fn over(alloc: Global, world: World, mode: Mode) -> LineRunner
        ensures work { result.work ≡ Running mode world }
        ensures output { result.output ≡ [] }
    {
        LineRunner::new(alloc, Job::Run { world, mode })
    }

    /// A runner that carries out orders on a new world of `cpus` processors. `NoMemory` is returned if the world cannot be made.
    pub fn on_world(alloc: Global, cpus: u8, mode: Mode) -> Result<LineRunner, RunFault>
        requires low { 1 ≤ cpus }
        requires high { cpus ≤ 16 }
        ensures ok { IfOk result (λ runner.
            (runner.work ≡ Running mode (first_world cpus)) × (runner.output ≡ [])) }
        ensures err { IfErr result (λ fault. fault ≡ OutOfMemory) }
    {
        let Ok(world) = World::new(alloc, cpus) else {
            return Err(RunFault::NoMemory);
        };
        Ok(LineRunner::over(alloc, world, mode))
    }

    /// A runner that keeps entries, with none yet.
    pub fn keeping(alloc: Global) -> LineRunner
        ensures work { result.work ≡ Keeping [] }
        ensures output { result.output ≡ [] }
    {
        let entries = Vec::new(alloc);
        LineRunner::new(alloc, Job::Keep { entries })
    }

    /// The language of the lines.
    fn language(&self) -> Language
        ensures { result ≡ language_of_work self.now.work }
    {
        match self.job {
            Job::Run { .. } => Language::Script,
            Job::Keep { .. } => Language::Transcript,
        }
    }

    /// The entries that were kept; none if a world is run.
    pub fn entries(&self) -> &[Entry]
        ensures { result.now ≡ kept_entries self.now.work }
    {
        match &self.job {
            Job::Run { .. } => &[],
            Job::Keep { entries } => entries,
        }
    }

    /// The world that is run; none if entries are kept.
    pub fn world(&self) -> Option<&World>
        ensures some { IfSome result (λ world. run_world self.now.work ≡ Some world.now) }
        ensures none { IfNone result (run_world self.now.work ≡ None) }
    {
        match &self.job {
            Job::Run { world, .. } => Some(world),
            Job::Keep { .. } => None,
        }
    }

    /// Hands over the world that is run; none if entries are kept.
    pub fn into_world(self) -> Option<World>
        ensures { result ≡ run_world self.work }
    {
        let LineRunner {
            job,
            tokens: _tokens,
            printed: _printed,
            output: _output,
        } = self;
        match job {
            Job::Run { world, mode: _ } => Some(world),
            Job::Keep { entries: _entries } => None,
        }
    }

    /// Carries out an order, and gathers its output.
    fn obey(&mut self, order: Order) -> Result<(), RunFault>
        requires { language_of_work self.old.work ≡ AScript }
        ensures ok { OnOk result (Takes self.old (Do order) self.new) }
        ensures fault { IfErr result (λ fault. fault ≡ OutOfMemory) }
        ensures kept { OnErr result (self.new.output ≡ self.old.output) }
        ensures lost { OnErr result (Loses self.old (Do order) self.new) }
    {
        match &mut self.job {
            Job::Run { world, mode } => {
                carry_out(world, *mode, order, &mut self.printed)?;
                self.output.extend_from_slice(self.printed.as_bytes())?;
                Ok(())
            }
            Job::Keep { .. } => unreachable!(),
        }
    }

    /// Keeps an entry.
    fn enter(&mut self, entry: Entry) -> Result<(), RunFault>
        requires { language_of_work self.old.work ≡ ATranscript }
        ensures ok { OnOk result (Takes self.old (Enter entry) self.new) }
        ensures fault { IfErr result (λ fault. fault ≡ OutOfMemory) }
        ensures kept { OnErr result (self.new.output ≡ self.old.output) }
        ensures unchanged { OnErr result (self.new ≡ self.old) }
    {
        match &mut self.job {
            Job::Run { .. } => unreachable!(),
            Job::Keep { entries } => {
                entries.push(entry)?;
                Ok(())
            }
        }
    }

    /// Does the line with this number and text. After a fault the output has nothing of it. A text that is not a line changes nothing. At
    /// `NoMemory` nothing changed either, or the line was done and its output is lost.
    pub fn run_line(&mut self, number: u64, text: &[u8]) -> Result<(), RunFault>
        ensures ok { OnOk result (Made self.old text.now self.new) }
        ensures fault { IfErr result (λ fault.
            MakeFault (language_of_work self.old.work) number text.now fault) }
        ensures kept { OnErr result (self.new.output ≡ self.old.output) }
        ensures left { IfErr result (λ fault. Leaves self.old text.now fault self.new) }
    {
        match parse(self.language(), &mut self.tokens, text)? {
            None => Err(RunFault::Line(number)),
            Some(Line::Skipped) => Ok(()),
            Some(Line::Do(order)) => self.obey(order),
            Some(Line::Enter(entry)) => self.enter(entry),
        }
    }

    /// The gathered output.
    pub fn output(&self) -> &[u8]
        ensures { result.now ≡ self.now.output }
    {
        &self.output
    }

    /// Drops the gathered output.
    pub fn drop_output(&mut self)
        ensures { self.new ≡ record self.old { output = [] } }
    {
        self.output.clear();
    }

    /// Writes the gathered output. After a fault the first part of it was written.
    pub fn write_output<W: Write>(&mut self, writer: &mut W) -> Result<(), RunFault>
        ensures ok { OnOk result
            (Appends (W.contents writer.old) (W.contents writer.new) self.old.output) }
        ensures none { OnOk result (self.new ≡ record self.old { output = [] }) }
        ensures fault { IfErr result (λ fault. fault ≡ WriteFault) }
        ensures front { OnErr result
            (Front self.old.output (W.contents writer.old) (W.contents writer.new)) }
    {
        write_out(writer, &self.output)?;
        self.drop_output();
        Ok(())
    }
}
