//! Tests: scripts whose lines have answers, in the language of `postmig test`.

use crate::{CPUS, print_fault};
use engine::NamedScript;
use expected::{order_part, test_script};
use std::alloc::{AllocError, Global};

/// Runs a test, and appends to a text what it says of the first answer that differs, or its fault. It returns how many answers were
/// compared.
pub(crate) fn print_test(
    alloc: Global,
    text: &mut Vec<u8>,
    test: &[u8],
    name: &str,
) -> Result<u64, AllocError> {
    let mut reader = test;
    match test_script(alloc, &mut reader, text, NamedScript { name, cpus: CPUS }) {
        Ok(tested) => Ok(tested.answers),
        Err(fault) => {
            print_fault(alloc, text, Some(fault))?;
            Ok(0)
        }
    }
}

/// The script of a test: its lines without their answers.
pub(crate) fn script_of(alloc: Global, test: &[u8]) -> Result<Vec<u8>, AllocError> {
    let mut script = Vec::new(alloc);
    for line in test.split(|byte| *byte == b'\n') {
        script.extend_from_slice(order_part(line))?;
        script.push(b'\n')?;
    }
    let _ = script.pop();
    Ok(script)
}
