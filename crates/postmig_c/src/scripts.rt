//! The calls on a whole script or transcript.

ghost use Rattle.std.specs.Prelude.{◌≡◌, ◌≤◌, ◌⊎◌, [], ℕ, List};
ghost use Rattle.std.specs.declared.option.Option.TheVariants.{Some as Just};
ghost use Rattle.engine.specs.Engine.{tested_mode};
ghost use Rattle.engine.specs.Script.{Writes};
ghost use Rattle.engine.specs.Checking.{Checks};
ghost use Rattle.explain.specs.Explaining.{Explains};
ghost use Rattle.mig_model.specs.Migration.{first_world};
ghost use Rattle.postmig_c.specs.Room.{Fills, IsTooLong};
ghost use Rattle.postmig_c.specs.Calls.{StopsAtLine, CheckStopsAtLine, asks_reasons};

use crate::room::hand_over;
use crate::status::{NO_CPU, NO_MEMORY, NOT_A_LINE};
use crate::worlds::mode_of;
use engine::{RunFault, Setup, check_script, run_script};
use explain::{Asks, NotingReader, explain_script};
use std::alloc::Global;

/// The status of a fault. Of a text that has a line that is not one, `written` is then the number of that line, from 1.
fn status_of(fault: RunFault, written: &mut usize) -> u32
    ensures range { (result ≡ 3) ⊎ (result ≡ 4) }
    ensures line { result ≡ 3 → fault ≡ RunFault.Line written.new }
{
    match fault {
        RunFault::Line(number) => {
            *written = number as usize;
            NOT_A_LINE
        }
        RunFault::ReadFault | RunFault::WriteFault | RunFault::NoMemory => NO_MEMORY,
    }
}

/// Runs a whole script on a new world, and writes what it prints to `out`. If `out` is too short `written` is the length that is needed. If
/// a line of the script is not one, `written` is its number.
#[unsafe(no_mangle)]
pub extern "C" fn postmig_run(
    alloc: Global,
    cpus: u8,
    is_transcript: bool,
    script: &[u8],
    out: &mut [u8],
    written: &mut usize,
) -> u32
    ensures ok { result ≡ 0 →
        (text : List ℕ) × Writes (tested_mode is_transcript) (first_world cpus) script.now (Just [])
        (Just text) × Fills text written.new out.new }
    ensures long { result ≡ 1 →
        (text : List ℕ) × Writes (tested_mode is_transcript) (first_world cpus) script.now (Just [])
        (Just text) × IsTooLong text written.new out.new }
    ensures no_line { result ≡ 3 →
        StopsAtLine (tested_mode is_transcript) (first_world cpus) script.now written.new }
    ensures range { result ≤ 5 }
{
    if cpus < 1 || cpus > 16 {
        return NO_CPU;
    }
    let mut reader = script;
    let mut text = Vec::new(alloc);
    let mode = mode_of(is_transcript);
    match run_script(alloc, &mut reader, &mut text, Setup { cpus, mode }) {
        Ok(()) => hand_over(&text, out, written),
        Err(fault) => status_of(fault, written),
    }
}

/// Checks a whole transcript, and writes the verdict on it to `out`. If a line of the transcript is not one, `written` is its number.
#[unsafe(no_mangle)]
pub extern "C" fn postmig_check(
    alloc: Global,
    transcript: &[u8],
    is_flat: &mut bool,
    out: &mut [u8],
    written: &mut usize,
) -> u32
    ensures ok { result ≡ 0 →
        (text : List ℕ) × Checks transcript.now is_flat.new (Just []) (Just text) ×
        Fills text written.new out.new }
    ensures long { result ≡ 1 →
        (text : List ℕ) × Checks transcript.now is_flat.new (Just []) (Just text) ×
        IsTooLong text written.new out.new }
    ensures no_line { result ≡ 3 → CheckStopsAtLine transcript.now written.new }
    ensures range { result ≤ 4 }
{
    let mut reader = transcript;
    let mut text = Vec::new(alloc);
    match check_script(alloc, &mut reader, &mut text) {
        Ok(answer) => {
            *is_flat = answer;
            hand_over(&text, out, written)
        }
        Err(fault) => status_of(fault, written),
    }
}

/// Checks a whole transcript, and writes what `postmig check --explain` writes: the verdict on it, or the first entry that is wrong, or with
/// `all` each, and after it the reason. If a line of the transcript is not one, `written` is its number.
#[unsafe(no_mangle)]
pub extern "C" fn postmig_explain(
    alloc: Global,
    all: bool,
    transcript: &[u8],
    is_flat: &mut bool,
    out: &mut [u8],
    written: &mut usize,
) -> u32
    ensures ok { result ≡ 0 →
        (count : ℕ) × (text : List ℕ) ×
        Explains (asks_reasons all) transcript.now is_flat.new count (Just []) (Just text) ×
        Fills text written.new out.new }
    ensures long { result ≡ 1 →
        (count : ℕ) × (text : List ℕ) ×
        Explains (asks_reasons all) transcript.now is_flat.new count (Just []) (Just text) ×
        IsTooLong text written.new out.new }
    ensures no_line { result ≡ 3 → CheckStopsAtLine transcript.now written.new }
    ensures range { result ≤ 4 }
{
    let asks = Asks { all, reasons: true };
    let mut reader = NotingReader::new(alloc, transcript);
    let mut text = Vec::new(alloc);
    match explain_script(alloc, &mut reader, &mut text, asks) {
        Ok(verdict) => {
            *is_flat = verdict.is_flat;
            hand_over(&text, out, written)
        }
        Err(fault) => status_of(fault, written),
    }
}
