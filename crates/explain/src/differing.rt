//! Which bytes of a load differ, and which entries decide them.

use crate::span::Span;
use crate::touch::holders;
use mig_base::{Entry, NoMemory};
use std::alloc::Global;

/// Bytes that differ, one after the other, which the same entries decide.
#[derive(Drop)]
pub(crate) struct DifferingBytes {
    pub span: Span,
    /// The indexes of the entries, in order.
    pub holders: Vec<usize>,
}

/// The parts of a load in which a byte of `difference`, the lowest first, is not 0.
pub(crate) fn differing_parts(
    alloc: Global,
    past: &[Entry],
    load: Span,
    difference: u64,
) -> Result<Vec<DifferingBytes>, NoMemory> {
    let mut parts: Vec<DifferingBytes> = Vec::new(alloc);
    let mut addr = load.start;
    for byte in difference.to_le_bytes() {
        let span = Span::bytes(addr, 1);
        addr = span.end;
        if byte == 0 || !load.contains(span.start) {
            continue;
        }
        let holders = holders(alloc, past, span.start)?;
        match parts.last_mut() {
            Some(part) if part.span.end == span.start && part.holders == holders => {
                part.span.end = span.end;
            }
            _ => parts.push(DifferingBytes { span, holders })?,
        }
    }
    Ok(parts)
}
