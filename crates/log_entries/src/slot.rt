//! An event as a store keeps it, by the indices of what it says in tables.

ghost use Rattle.std.specs.Prelude.{◌≡◌, Some, option_map, IfOk};
ghost use Rattle.kernel_rules.specs.Certified.{outcome_in};
ghost use Rattle.kernel_rules.specs.Runs.{begins, ends, event_of, outcome_of};
ghost use Rattle.log_entries.specs.Stores.{event_in, made_in, messages_at, runs_at, settled_event, IsGrown, IsIn};

use crate::settle::settled;
use crate::shape::{addresses_of, made_with, shape_of};
use crate::tables::{Span, Tables};
use foundation::NoMemory;
use kernel_rules::{Ending, Entry, Made, Run};
use uffd_log::{Answer, Message};

/// A call begins, with the index of its shape and its addresses, or ends, with the index of its answer and what it has read.
#[derive(Clone, Copy)]
pub(crate) enum Slot {
    Begins {
        key: u32,
        shape: u32,
        to: u64,
        from: u64,
    },
    Ends {
        key: u32,
        answer: u32,
        messages: Span,
        runs: Span,
    },
}

impl Tables {
    /// The slot of a call that begins.
    pub(crate) fn begin_slot(&mut self, made: Made) -> Result<Slot, NoMemory>
        ensures grown { IsGrown self.old self.new }
        ensures slot { IfOk result (λ slot. IsIn self.new slot) }
        ensures event { IfOk result (λ slot. event_in self.new slot ≡ begins made) }
    {
        let (to, from) = addresses_of(made.call);
        let shape = self.shape_number(shape_of(made))?;
        Ok(Slot::Begins {
            key: made.key,
            shape,
            to,
            from,
        })
    }

    /// The slot of the end of a call.
    pub(crate) fn end_slot(
        &mut self,
        key: u32,
        answer: Answer,
        messages: &[Message],
        runs: &[Run],
    ) -> Result<Slot, NoMemory>
        ensures grown { IsGrown self.old self.new }
        ensures slot { IfOk result (λ slot. IsIn self.new slot) }
        ensures event { IfOk result (λ slot. event_in self.new slot ≡ ends key
            (record { answer = answer; messages = messages.now; runs = runs.now })) }
    {
        let answer = self.answer_number(answer)?;
        let messages = self.add_messages(messages)?;
        let runs = self.add_runs(runs)?;
        Ok(Slot::Ends {
            key,
            answer,
            messages,
            runs,
        })
    }

    /// The slot, once what no line says is put into the call that begins in it, if one does.
    pub(crate) fn settled_slot(
        &mut self,
        slot: Slot,
        space: u32,
        last: bool,
    ) -> Result<Slot, NoMemory>
        requires { IsIn self.old slot }
        ensures grown { IsGrown self.old self.new }
        ensures slot { IfOk result (λ after. IsIn self.new after) }
        ensures event { IfOk result (λ after.
            event_in self.new after ≡ settled_event (event_in self.old slot) space last) }
    {
        match slot {
            Slot::Begins {
                key,
                shape,
                to,
                from,
            } => {
                let made = settled(self.shapes[shape as usize], space, last);
                let shape = self.shape_number(made)?;
                Ok(Slot::Begins {
                    key,
                    shape,
                    to,
                    from,
                })
            }
            Slot::Ends { .. } => Ok(slot),
        }
    }

    /// The call that begins in a slot, if one does.
    pub(crate) fn made_of(&self, slot: Slot) -> Option<Made>
        requires { IsIn self.now slot }
        ensures { result ≡ made_in (Some (event_in self.now slot)) }
    {
        match slot {
            Slot::Begins {
                key,
                shape,
                to,
                from,
            } => Some(made_with(self.shapes[shape as usize], key, to, from)),
            Slot::Ends { .. } => None,
        }
    }

    /// The answer of the call that ends in a slot, if one does.
    pub(crate) fn answer_of(&self, slot: Slot) -> Option<Answer>
        requires { IsIn self.now slot }
        ensures { result ≡
            option_map (λ out. out.answer) (outcome_in (Some (event_in self.now slot))) }
    {
        match slot {
            Slot::Ends { answer, .. } => Some(self.answers[answer as usize]),
            Slot::Begins { .. } => None,
        }
    }

    /// The messages that the call has read which ends in a slot; none if no call ends there.
    pub(crate) fn messages_of(&self, slot: Slot) -> &[Message]
        requires { IsIn self.now slot }
        ensures { result.now ≡ messages_at (Some (event_in self.now slot)) }
    {
        match slot {
            Slot::Ends { messages, .. } => {
                let first = messages.first as usize;
                &self.messages[first..first + messages.count as usize]
            }
            Slot::Begins { .. } => &[],
        }
    }

    /// The runs of pages that the call has found which ends in a slot; none if no call ends there.
    pub(crate) fn runs_of(&self, slot: Slot) -> &[Run]
        requires { IsIn self.now slot }
        ensures { result.now ≡ runs_at (Some (event_in self.now slot)) }
    {
        match slot {
            Slot::Ends { runs, .. } => {
                let first = runs.first as usize;
                &self.runs[first..first + runs.count as usize]
            }
            Slot::Begins { .. } => &[],
        }
    }

    /// How the call ended that ends in a slot, with its answer.
    fn ending_of(&self, slot: Slot, answer: Answer) -> Result<Ending, NoMemory>
        requires { IsIn self.now slot }
        ensures { IfOk result (λ ending. outcome_of ending ≡ record {
          answer = answer;
          messages = messages_at (Some (event_in self.now slot));
          runs = runs_at (Some (event_in self.now slot));
        }) }
    {
        let alloc = *self.shapes.allocator();
        Ok(Ending {
            answer,
            messages: Vec::from_slice(alloc, self.messages_of(slot))?,
            runs: Vec::from_slice(alloc, self.runs_of(slot))?,
        })
    }

    /// The entry of a slot.
    pub(crate) fn entry_of(&self, slot: Slot) -> Result<Entry, NoMemory>
        requires { IsIn self.now slot }
        ensures { IfOk result (λ entry. event_of entry ≡ event_in self.now slot) }
    {
        match slot {
            Slot::Begins {
                key,
                shape,
                to,
                from,
            } => Ok(Entry::Begins(made_with(self.shapes[shape as usize], key, to, from))),
            Slot::Ends { key, answer, .. } => {
                let ending = self.ending_of(slot, self.answers[answer as usize])?;
                Ok(Entry::Ends { key, ending })
            }
        }
    }
}
