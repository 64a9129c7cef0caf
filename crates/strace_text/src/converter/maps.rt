//! Map calls, of which those belong to the log that meet a registered range.

use super::{Converter, Range};
use crate::flags::{Names, flags};
use crate::kind::Kind;
use crate::number::{address, number, without_paths};
use crate::plan::{After, Plan, answer};
use crate::stop::Stop;
use crate::text::{argument, count_of_arguments, first_word};
use crate::traced::Traced;

impl Converter {
    /// Whether a range meets one that was registered.
    fn meets(&self, range: Range) -> bool {
        let end = range.start.saturating_add(range.length);
        self.ranges.iter().any(|other| {
            range.start < other.start.saturating_add(other.length) && other.start < end
        })
    }

    /// The range that the first two arguments are.
    fn range_of(&self, text: &[u8]) -> Result<Range, Stop> {
        Ok(Range {
            start: address(self.alloc, argument(text, 0))?,
            length: number(self.alloc, argument(text, 1))?,
        })
    }

    /// A map call, if it meets a registered range by one of these.
    fn map_plan(
        &mut self,
        call: &Traced,
        begin: String,
        range: Range,
        other: Range,
    ) -> Result<Option<Plan>, Stop> {
        if !self.meets(range) && !self.meets(other) {
            return Ok(None);
        }
        self.tell_of_borrowed_memory(call.entered_at, call.thread)?;
        let returned = match call.kind {
            Kind::Mmap | Kind::Mremap if call.has_succeeded() => first_word(&call.returned),
            _ => b"".as_slice(),
        };
        let end = answer(self.alloc, call, returned)?;
        Ok(Some(Plan::new(self.alloc, begin, end, After::Nothing)))
    }

    /// The address that a call has returned, or another one.
    fn returned_address(&self, call: &Traced, otherwise: u64) -> Result<u64, Stop> {
        if call.returned.starts_with(b"0x") {
            return number(self.alloc, first_word(&call.returned));
        }
        Ok(otherwise)
    }

    pub(super) fn plan_mmap(&mut self, call: &Traced) -> Result<Option<Plan>, Stop> {
        let alloc = self.alloc;
        let text = without_paths(alloc, &call.arguments)?;
        self.check_count(&text, 4, 6)?;
        let range = self.range_of(&text)?;
        let Range { start, length } = range;
        let moved = Range {
            start: self.returned_address(call, start)?,
            length,
        };
        let protection = flags(alloc, argument(&text, 2), Names::Protections)?;
        let bits = flags(alloc, argument(&text, 3), Names::MapFlags)?;
        let begin = format!(in alloc; "mmap 0x{start:x} 0x{length:x} 0x{protection:x} 0x{bits:x}")?;
        self.map_plan(call, begin, range, moved)
    }

    pub(super) fn plan_munmap(&mut self, call: &Traced) -> Result<Option<Plan>, Stop> {
        self.check_count(&call.arguments, 2, 2)?;
        let range = self.range_of(&call.arguments)?;
        let Range { start, length } = range;
        let begin = format!(in self.alloc; "munmap 0x{start:x} 0x{length:x}")?;
        self.map_plan(call, begin, range, range)
    }

    pub(super) fn plan_madvise(&mut self, call: &Traced) -> Result<Option<Plan>, Stop> {
        self.check_count(&call.arguments, 3, 3)?;
        let range = self.range_of(&call.arguments)?;
        let Range { start, length } = range;
        let advice = flags(self.alloc, argument(&call.arguments, 2), Names::Advice)?;
        let begin = format!(in self.alloc; "madvise 0x{start:x} 0x{length:x} {advice}")?;
        self.map_plan(call, begin, range, range)
    }

    pub(super) fn plan_mremap(&mut self, call: &Traced) -> Result<Option<Plan>, Stop> {
        let alloc = self.alloc;
        let text = call.arguments.as_slice();
        self.check_count(text, 4, 5)?;
        let range = self.range_of(text)?;
        let length = number(alloc, argument(text, 2))?;
        let bits = flags(alloc, argument(text, 3), Names::RemapFlags)?;
        let target = if count_of_arguments(text) == 5 {
            address(alloc, argument(text, 4))?
        } else {
            0
        };
        let moved = Range {
            start: self.returned_address(call, target)?,
            length,
        };
        let Range { start, length: old } = range;
        let begin = format!(in alloc;
            "mremap 0x{start:x} 0x{old:x} 0x{length:x} 0x{bits:x} 0x{target:x}"
        )?;
        let plan = self.map_plan(call, begin, range, moved)?;
        if plan.is_some() && call.has_succeeded() {
            self.ranges.insert(moved)?;
        }
        Ok(plan)
    }
}
