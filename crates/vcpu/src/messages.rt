//! What the reading of a message does to the processors.

ghost use Rattle.std.specs.Prelude.{◌≡◌, set};
ghost use Rattle.mig_model.specs.Cpus.{all_woken, handed_over, message_less, processor_at};
ghost use Rattle.mig_model.specs.Effects.{event_effect, read_effect};
ghost use Rattle.mig_model.specs.Guest.{cpus_read, fault_count, is_left_by};

use crate::cpus::Cpus;
use mig_base::Message;
use mig_base::effect::Effect;

impl Cpus {
    /// Takes note of a message that was read, which processor `cpu` has caused, and returns the effect of the step. A page fault changes
    /// nothing. An event wakes the processors that sleep on pages that are gone or have moved away; and with the last message of its map
    /// call the calling processor is handed its reply.
    pub fn read(&mut self, message: Message, cpu: u8) -> Effect
        ensures effect { result ≡ read_effect self.old cpu message }
        ensures cpus { self.new ≡ cpus_read self.old cpu message }
    {
        match message {
            Message::PageFault { addr, wp, .. } => Effect::ReadFault { addr, wp },
            event => self.read_event(event, cpu),
        }
    }

    /// Counts an event as read for the processor that caused it, wakes those whose pages are gone, and returns the effect.
    fn read_event(&mut self, event: Message, cpu: u8) -> Effect
        requires { fault_count event ≡ 0 }
        ensures effect { result ≡ event_effect event cpu (handed_over (processor_at self.old cpu)) }
        ensures cpus { self.new ≡
            all_woken (is_left_by event)
            (set self.old cpu (message_less (processor_at self.old cpu))) }
    {
        let reply = self.message_read(cpu).unwrap_or(None);
        self.wake_left(event);
        match reply {
            Some(reply) => Effect::ReadLast { event, cpu, reply },
            None => Effect::ReadEvent { event },
        }
    }

    /// Wakes the processors that sleep on pages that are gone or have moved away.
    fn wake_left(&mut self, event: Message)
        requires { fault_count event ≡ 0 }
        ensures { self.new ≡ all_woken (is_left_by event) self.old }
    {
        match event {
            Message::PageFault { .. } => unreachable!(),
            Message::Remap { from, len, .. } => self.wake_span(from, len),
            Message::Remove { start, end } | Message::Unmap { start, end } => {
                self.wake_range(start, end);
            }
        }
    }
}
