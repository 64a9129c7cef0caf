//! Marks: what happens to the migration as a whole.

use super::Recorder;
use diagram::record::{Event, Mark};
use mig_base::effect::Effect;
use mig_base::phase::Received;
use mig_base::schedule::Side;

/// The mark of an effect, with its two numbers, if it has one. That of a break has other numbers.
fn mark_of(effect: Effect) -> Option<(Event, u32, u32)> {
    match effect {
        Effect::Started { .. } => Some((Event::Start, 0, 0)),
        Effect::RoundMade { round, todo } => Some((Event::Round, round, todo)),
        Effect::Switched { owed, .. } => Some((Event::Switch, owed, 0)),
        Effect::TookPackage { owed } => Some((Event::Package, owed, 0)),
        Effect::EndSent => Some((Event::End, 0, 0)),
        Effect::TookDone => Some((Event::Complete, 0, 0)),
        Effect::TookRecv {
            state: Received::Ended,
            ..
        } => Some((Event::Complete, 0, 0)),
        Effect::Broken => Some((Event::Break, 0, 0)),
        Effect::Noticed { side: Side::Source } => Some((Event::SourceNotice, 0, 0)),
        Effect::Noticed { .. } => Some((Event::DestinationNotice, 0, 0)),
        Effect::Resumed { epoch } => Some((Event::Resume, epoch, 0)),
        _ => None,
    }
}

impl Recorder {
    /// Notes a mark.
    fn mark(&mut self, event: Event, first: u32, second: u32) {
        let mark = Mark {
            line: self.line,
            event,
            first,
            second,
        };
        let kept = self.record.marks.push(mark).is_ok();
        self.keep(kept);
    }

    /// Notes the mark of an effect, if it has one.
    pub(super) fn see_marks(&mut self, effect: Effect) {
        match mark_of(effect) {
            Some((Event::Break, _, _)) => {
                let (pages, requests) = self.lose();
                self.mark(Event::Break, pages, requests);
            }
            Some((event, first, second)) => self.mark(event, first, second),
            None => {}
        }
    }
}
