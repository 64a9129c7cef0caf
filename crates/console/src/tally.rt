//! Scripts as tests, one after the other.

ghost use Rattle.std.specs.Prelude.{◌≡◌, ◌≤◌};
ghost use Rattle.console.specs.Status.{tally_status};

use crate::endings::{end_files, end_test, say_nothing};
use crate::findings::Findings;
use crate::paint::{Paint, Painted, paint_for};
use crate::scripts::Scripts;
use crate::status::status_of;
use engine::{NamedScript, RunFault};
use expected::{Outcome, Tested, list_differences, test_script};
use std::alloc::Global;
use std::io;
use std::io::{Read, Stdout, Write};
use streams::{
    ALL_DONE, Input, NO_FLAT_RUN, NOTHING_TO_JUDGE, Watched, open_named, open_output,
    standard_input,
};

/// What messages call standard input.
const STANDARD: &str = "-";

/// What a script lacks in which nothing is compared.
pub(crate) const NO_ANSWER: &str = "no answer";

/// What is asked for of tests.
#[derive(Clone, Copy)]
pub struct TestAsks {
    /// Whether an answer has to be compared in each script.
    pub is_strict: bool,
    /// Whether each answer that differs is named, and not the first of a script alone.
    pub names_all: bool,
    /// Whether the report has the form of TAP.
    pub is_tap: bool,
}

/// How a script was found to be.
#[derive(Clone, Copy, PartialEq, Eq)]
enum Found {
    Same,
    Differs,
    /// No answer was compared.
    Nothing,
    /// It could not be tested to its end.
    Fault,
}

/// The scripts that were tested.
#[derive(Drop)]
struct Tally {
    asks: TestAsks,
    paint: Paint,
    scripts: u32,
    /// The answers that were compared in them. A script with a fault has none.
    answers: u64,
    /// The scripts with an answer that differs.
    differ: u32,
    /// The scripts in which no answer was compared although one had to be.
    unchecked: u32,
    /// The fault of the first script that could not be tested to its end.
    fault: Option<RunFault>,
}

/// What a write has given.
fn written(answer: io::Result<()>) -> Result<(), RunFault> {
    match answer {
        Ok(()) => Ok(()),
        Err(_) => Err(RunFault::WriteFault),
    }
}

/// Begins the next script of an input after one that was tested so. False where there is none, and where the input ended in this one.
fn begin_next<R: Read + Drop>(
    scripts: &mut Scripts<R>,
    tested: Result<Tested, RunFault>,
) -> Result<bool, RunFault> {
    match tested {
        Ok(_) => scripts.advance(),
        Err(RunFault::Line(number)) if !scripts.ends_at(number) => scripts.advance(),
        Err(_) => Ok(false),
    }
}

impl Tally {
    /// Counts a script that was tested to its end. It is named on standard error where no answer was compared although one had to be.
    fn count(&mut self, rt: &HostRuntime, name: &str, tested: Tested) -> Found {
        self.answers = self.answers.saturating_add(tested.answers);
        if let Outcome::Differs = tested.outcome {
            self.differ = self.differ.saturating_add(1);
            return Found::Differs;
        }
        if tested.answers > 0 {
            return Found::Same;
        }
        if self.asks.is_strict {
            say_nothing(rt, name, NO_ANSWER);
            self.unchecked = self.unchecked.saturating_add(1);
        }
        Found::Nothing
    }

    /// Counts a fault, and says it on standard error. One that ends all tests is returned.
    fn count_fault(
        &mut self,
        rt: &HostRuntime,
        name: &str,
        input: &Watched<'_, Input>,
        fault: RunFault,
    ) -> Result<Found, RunFault> {
        end_test(rt, name, input, fault)?;
        if self.fault.is_none() {
            self.fault = Some(fault);
        }
        Ok(Found::Fault)
    }

    /// Runs a script of an input, and compares its answers.
    fn compare(
        &self,
        alloc: Global,
        name: &str,
        scripts: &mut Scripts<Watched<'_, Input>>,
        output: &mut Watched<'_, Stdout>,
        cpus: u8,
    ) -> Result<Tested, RunFault>
        requires low { 1 ≤ cpus }
        requires high { cpus ≤ 16 }
    {
        let mut findings = Findings {
            output: Painted::new(output, self.paint),
            name,
            before: scripts.before(),
            is_comment: self.asks.is_tap,
        };
        let test = NamedScript { name: "", cpus };
        let tested = if self.asks.names_all {
            list_differences(alloc, scripts, &mut findings, test)
        } else {
            test_script(alloc, scripts, &mut findings, test)
        };
        match tested {
            Ok(tested) => Ok(tested),
            Err(fault) => Err(scripts.in_input(fault)),
        }
    }

    /// Tests a script of an input, and begins the next one. False where there is none.
    fn test_next(
        &mut self,
        rt: &HostRuntime,
        name: &str,
        scripts: &mut Scripts<Watched<'_, Input>>,
        output: &mut Watched<'_, Stdout>,
        cpus: u8,
    ) -> Result<bool, RunFault>
        requires low { 1 ≤ cpus }
        requires high { cpus ≤ 16 }
    {
        self.scripts = self.scripts.saturating_add(1);
        let before = scripts.before();
        let tested = self.compare(rt.alloc(), name, scripts, output, cpus);
        let begun = begin_next(scripts, tested);
        let mut found = match tested {
            Ok(tested) => self.count(rt, name, tested),
            Err(fault) => self.count_fault(rt, name, scripts.input(), fault)?,
        };
        let goes_on = match begun {
            Ok(goes_on) => goes_on,
            Err(fault) => {
                found = self.count_fault(rt, name, scripts.input(), fault)?;
                false
            }
        };
        self.write_result(output, name, before, found)?;
        Ok(goes_on)
    }

    /// Tests each script of an input.
    fn test_input(
        &mut self,
        rt: &HostRuntime,
        name: &str,
        input: Watched<'_, Input>,
        output: &mut Watched<'_, Stdout>,
        cpus: u8,
    ) -> Result<(), RunFault>
        requires low { 1 ≤ cpus }
        requires high { cpus ≤ 16 }
    {
        let mut scripts = Scripts::new(rt.alloc(), input)?;
        for _ in 0..u64::MAX {
            if !self.test_next(rt, name, &mut scripts, output, cpus)? {
                break;
            }
        }
        Ok(())
    }

    /// Tests each of the files, one after the other.
    fn test_each(
        &mut self,
        rt: &HostRuntime,
        names: &[&str],
        output: &mut Watched<'_, Stdout>,
        cpus: u8,
    ) -> Result<(), RunFault>
        requires low { 1 ≤ cpus }
        requires high { cpus ≤ 16 }
    {
        for name in names {
            match open_named(rt, name) {
                Some(input) => self.test_input(rt, name, input, output, cpus)?,
                None => self.count_unopened(output, name)?,
            }
        }
        Ok(())
    }

    /// Tests all files, or standard input where there are none, and writes the report.
    fn test_all(
        &mut self,
        rt: &HostRuntime,
        files: Option<&[&str]>,
        output: &mut Watched<'_, Stdout>,
        cpus: u8,
    ) -> Result<(), RunFault>
        requires low { 1 ≤ cpus }
        requires high { cpus ≤ 16 }
    {
        self.write_head(output)?;
        match files {
            None => self.test_input(rt, STANDARD, standard_input(rt), output, cpus)?,
            Some(names) => self.test_each(rt, names, output, cpus)?,
        }
        self.write_counts(output)
    }

    /// Counts a file that could not be opened.
    fn count_unopened(
        &mut self,
        output: &mut Watched<'_, Stdout>,
        name: &str,
    ) -> Result<(), RunFault> {
        self.scripts = self.scripts.saturating_add(1);
        if self.fault.is_none() {
            self.fault = Some(RunFault::ReadFault);
        }
        self.write_result(output, name, 0, Found::Fault)
    }

    /// Begins the report, where it has the form of TAP.
    fn write_head(&self, output: &mut Watched<'_, Stdout>) -> Result<(), RunFault> {
        if !self.asks.is_tap {
            return Ok(());
        }
        written(write!(output, "TAP version 13\n"))
    }

    /// Writes how the script after this many lines of an input was found to be, where the report has the form of TAP.
    fn write_result(
        &self,
        output: &mut Watched<'_, Stdout>,
        name: &str,
        before: u64,
        found: Found,
    ) -> Result<(), RunFault> {
        if !self.asks.is_tap {
            return Ok(());
        }
        let number = self.scripts;
        let (word, skips) = match found {
            Found::Same => ("ok", ""),
            Found::Nothing if !self.asks.is_strict => ("ok", " # SKIP no answer was compared"),
            Found::Nothing | Found::Differs | Found::Fault => ("not ok", ""),
        };
        if before == 0 {
            return written(write!(output, "{word} {number} - {name}{skips}\n"));
        }
        let first = before.saturating_add(1);
        written(write!(output, "{word} {number} - {name}:{first}{skips}\n"))
    }

    /// Writes how many scripts were tested, how many answers were compared, and how many scripts differ.
    fn write_counts(&self, output: &mut Watched<'_, Stdout>) -> Result<(), RunFault> {
        let scripts = self.scripts;
        let answers = self.answers;
        let differ = self.differ;
        if self.asks.is_tap {
            written(write!(output, "1..{scripts}\n# "))?;
        }
        written(write!(
            output,
            "{scripts} files, {answers} answers, {differ} differ\n"
        ))
    }

    /// The exit status: whether any script differs, the fault of the first that has one, or whether nothing was compared, or not in each
    /// script where that is asked for.
    fn status(&self) -> u8
        ensures exact { result ≡
            tally_status self.now.differ self.now.fault self.now.unchecked self.now.answers }
        ensures least { result ≤ 6 }
    {
        if self.differ > 0 {
            return NO_FLAT_RUN;
        }
        if let Some(fault) = self.fault {
            return status_of(Err(fault));
        }
        if self.unchecked > 0 {
            return NOTHING_TO_JUDGE;
        }
        if self.answers > 0 {
            return ALL_DONE;
        }
        NOTHING_TO_JUDGE
    }
}

/// Tests each script of these files, or of standard input where none is named. Names each that differs or has a fault on standard output or
/// standard error, writes how many differ, and returns the exit status.
pub fn test_files(rt: &HostRuntime, files: Option<&[&str]>, asks: TestAsks, cpus: u8) -> u8
    requires low { 1 ≤ cpus }
    requires high { cpus ≤ 16 }
    ensures { result ≤ 6 }
{
    let mut output = open_output(rt);
    let mut tally = Tally {
        asks,
        paint: paint_for(rt, &rt.stdout()),
        scripts: 0,
        answers: 0,
        differ: 0,
        unchecked: 0,
        fault: None,
    };
    let ended = tally.test_all(rt, files, &mut output, cpus);
    let status = end_files(rt, ended, tally.status());
    if status == NOTHING_TO_JUDGE && tally.unchecked == 0 {
        say_nothing(rt, "test", NO_ANSWER);
    }
    status
}
