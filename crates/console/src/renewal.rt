//! Files of scripts as tests, whose answers are replaced.

ghost use Rattle.std.specs.Prelude.{◌≡◌, ◌≤◌};
ghost use Rattle.console.specs.Status.{files_status};

use crate::endings::{end_files, end_looked, end_test};
use crate::scripts::Scripts;
use crate::status::status_of;
use crate::tally::NO_ANSWER;
use engine::RunFault;
use engine::line_runner::write_out;
use expected::{Renewed, renew_answers};
use std::alloc::Global;
use std::fs::File;
use std::io::{Read, Stdout, Write};
use streams::{ALL_DONE, BAD_COMMAND_OR_SCRIPT, Watched, open_file, open_output, say_reason};

/// Replaces what a file has by a text. Says on standard error why that failed; the file may then have a part of the text.
fn write_file(rt: &HostRuntime, name: &str, text: &[u8]) -> bool {
    let mut file = match File::create(rt, name) {
        Ok(file) => Watched::new(name, file),
        Err(error) => {
            let _ = eprintln!(rt; "{}", RunFault::WriteFault);
            let _ = say_reason(rt, name, &error);
            return false;
        }
    };
    let is_written = write_out(&mut file, text).is_ok();
    if !is_written {
        let _ = eprintln!(rt; "{}", RunFault::WriteFault);
        let _ = file.say_why(rt, "no byte was taken");
    }
    is_written
}

/// Adds what one script has become to that of the scripts before it.
fn add(all: &mut Renewed, one: &Renewed) -> Result<(), RunFault> {
    all.text.extend_from_slice(&one.text)?;
    all.answers = all.answers.saturating_add(one.answers);
    all.changed = all.changed.saturating_add(one.changed);
    Ok(())
}

/// Replaces the answers of each script of an input.
fn renew_scripts<R: Read + Drop>(
    alloc: Global,
    scripts: &mut Scripts<R>,
    cpus: u8,
) -> Result<Renewed, RunFault>
    requires low { 1 ≤ cpus }
    requires high { cpus ≤ 16 }
{
    let mut all = Renewed {
        text: Vec::new(alloc),
        answers: 0,
        changed: 0,
    };
    for _ in 0..u64::MAX {
        match renew_answers(alloc, scripts, cpus) {
            Ok(one) => add(&mut all, &one)?,
            Err(fault) => return Err(scripts.in_input(fault)),
        }
        if !scripts.advance()? {
            break;
        }
    }
    Ok(all)
}

/// The files whose answers were replaced.
#[derive(Drop)]
struct Renewal {
    files: u32,
    /// The answers of the files that could be run to their end.
    answers: u64,
    /// How many of them were new.
    changed: u64,
    /// The fault of the first file that could not be run to its end or written.
    fault: Option<RunFault>,
}

impl Renewal {
    /// Counts a fault of a file.
    fn count_fault(&mut self, fault: RunFault) {
        if self.fault.is_none() {
            self.fault = Some(fault);
        }
    }

    /// What a file becomes. None if it could not be run to its end, which is said. A fault that ends everything is returned.
    fn renewed(
        &mut self,
        rt: &HostRuntime,
        name: &str,
        cpus: u8,
    ) -> Result<Option<Renewed>, RunFault>
        requires low { 1 ≤ cpus }
        requires high { cpus ≤ 16 }
    {
        let Some(input) = open_file(rt, name) else {
            self.count_fault(RunFault::ReadFault);
            return Ok(None);
        };
        let mut scripts = Scripts::new(rt.alloc(), input)?;
        match renew_scripts(rt.alloc(), &mut scripts, cpus) {
            Ok(renewed) => Ok(Some(renewed)),
            Err(fault) => {
                end_test(rt, name, scripts.input(), fault)?;
                self.count_fault(fault);
                Ok(None)
            }
        }
    }

    /// Replaces the answers of a file. A file that would not change is not written. A fault that ends everything is returned.
    fn renew_file(&mut self, rt: &HostRuntime, name: &str, cpus: u8) -> Result<(), RunFault>
        requires low { 1 ≤ cpus }
        requires high { cpus ≤ 16 }
    {
        self.files = self.files.saturating_add(1);
        let Some(renewed) = self.renewed(rt, name, cpus)? else {
            return Ok(());
        };
        self.answers = self.answers.saturating_add(renewed.answers);
        if renewed.changed == 0 {
            return Ok(());
        }
        if write_file(rt, name, &renewed.text) {
            self.changed = self.changed.saturating_add(renewed.changed);
        } else {
            self.count_fault(RunFault::WriteFault);
        }
        Ok(())
    }

    /// Replaces the answers of each of the files, one after the other.
    fn renew_all(&mut self, rt: &HostRuntime, names: &[&str], cpus: u8) -> Result<(), RunFault>
        requires low { 1 ≤ cpus }
        requires high { cpus ≤ 16 }
    {
        for name in names {
            self.renew_file(rt, name, cpus)?;
        }
        Ok(())
    }

    /// Writes how many files there were, how many answers they have, and how many of these are new.
    fn write_counts(&self, output: &mut Watched<'_, Stdout>) -> Result<(), RunFault> {
        let files = self.files;
        let answers = self.answers;
        let changed = self.changed;
        match write!(
            output,
            "{files} files, {answers} answers, {changed} changed\n"
        ) {
            Ok(()) => Ok(()),
            Err(_) => Err(RunFault::WriteFault),
        }
    }

    /// The exit status: the fault of the first file that has one.
    fn status(&self) -> u8
        ensures exact { result ≡ files_status self.now.fault 0 }
        ensures least { result ≤ 4 }
    {
        match self.fault {
            Some(fault) => status_of(Err(fault)),
            None => ALL_DONE,
        }
    }
}

/// Replaces the answers of each of these files, writes how many are new, and returns the exit status. Standard input, which has the name
/// `-`, cannot be replaced: no file is then.
pub fn renew_files(rt: &HostRuntime, files: &[&str], cpus: u8) -> u8
    requires low { 1 ≤ cpus }
    requires high { cpus ≤ 16 }
    ensures { result ≤ 6 }
{
    if files.iter().any(|name| *name == "-") {
        let _ = eprintln!(rt; "error: --write replaces files, and - is standard input");
        return BAD_COMMAND_OR_SCRIPT;
    }
    let mut output = open_output(rt);
    let mut renewal = Renewal {
        files: 0,
        answers: 0,
        changed: 0,
        fault: None,
    };
    let renewed = renewal.renew_all(rt, files, cpus);
    let ended = renewed.and_then(|()| renewal.write_counts(&mut output));
    let status = end_files(rt, ended, renewal.status());
    end_looked(rt, "test", NO_ANSWER, status, renewal.answers > 0)
}
