//! The first lines of a script.

ghost use Rattle.std.specs.Prelude.{IfSome, IfNone};
ghost use Rattle.show.specs.Shown.{AreFirst, HasFewer, IsBeyond, IsRun};

use lines::Lines;

/// The first `count` lines of some bytes, with their line feeds. `None` if there are fewer. What comes after the last line
/// feed is a line too, unless nothing does.
fn first_lines(bytes: &[u8], count: u64) -> Option<&[u8]>
    ensures some { IfSome result (λ front. AreFirst count bytes.now front.now) }
    ensures none { IfNone result (HasFewer count bytes.now) }
{
    let mut lines = Lines::new(bytes);
    for _ in 0..count {
        lines.next()?;
    }
    Some(&bytes[..bytes.len() - lines.rest().len()])
}

/// The lines of an input that are run: the number asked for, or all. `None` if there are fewer.
pub(crate) fn run_lines(input: &[u8], at: Option<u64>) -> Option<&[u8]>
    ensures some { IfSome result (λ front. IsRun at input.now front.now) }
    ensures none { IfNone result (IsBeyond at input.now) }
{
    match at {
        None => Some(input),
        Some(count) => first_lines(input, count),
    }
}
