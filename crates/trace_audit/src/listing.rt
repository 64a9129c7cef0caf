//! The listing of the lines of a trace that cannot be read.

ghost use Rattle.std.specs.Prelude.{◌≡◌, IfOk};
ghost use Rattle.trace_audit.specs.Traces.{refused_text};

use foundation::NoMemory;
use std::alloc::Global;
use std::fmt::Write;
use strace_text::Refused;

/// A line for each of them.
pub(crate) fn list_refused(
    alloc: Global,
    name: &str,
    wrong: &[Refused],
) -> Result<Vec<u8>, NoMemory>
    ensures { IfOk result (λ output. output.items ≡ refused_text name.now wrong.now) }
{
    let mut output = Vec::new(alloc);
    let mut text = String::new(alloc);
    for refused in wrong {
        let line = refused.line;
        text.clear();
        write!(text, "{name}:{line}: ")?;
        output.extend_from_slice(text.as_bytes())?;
        output.extend_from_slice(refused.reason.as_bytes())?;
        output.push(b'\n')?;
    }
    Ok(output)
}
