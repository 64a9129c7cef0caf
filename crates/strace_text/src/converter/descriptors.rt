//! Calls that copy or close descriptors.

ghost use Rattle.std.specs.Prelude.{◌≡◌, None, IfOk};

use super::Converter;
use crate::files::{Held, On};
use crate::number::{descriptor, number};
use crate::plan::{After, Plan, answer, simple};
use crate::stop::{Stop, refuse, refused};
use crate::text::{argument, count_of_arguments, has, look_up};
use crate::traced::Traced;

/// The target of a copy, if the call asks for one, and whether execve closes the copy.
#[derive(Clone, Copy)]
struct Copy {
    target: Option<u64>,
    closes: bool,
}

/// What an fcntl does with a descriptor.
#[derive(Clone, Copy)]
enum Fcntl {
    Asks,
    Duplicates { closes: bool },
    SetsFlags,
}

static COMMANDS: [(&str, Fcntl); 8] = [
    ("F_GETFD", Fcntl::Asks),
    ("F_SETFD", Fcntl::Asks),
    ("F_GETFL", Fcntl::Asks),
    ("F_GETOWN", Fcntl::Asks),
    ("F_GETPIPE_SZ", Fcntl::Asks),
    ("F_DUPFD", Fcntl::Duplicates { closes: false }),
    ("F_DUPFD_CLOEXEC", Fcntl::Duplicates { closes: true }),
    ("F_SETFL", Fcntl::SetsFlags),
];

impl Converter {
    /// Refuses a call that has fewer or more arguments.
    pub(super) fn check_count(&self, text: &[u8], least: usize, most: usize) -> Result<(), Stop> {
        let count = count_of_arguments(text);
        if least <= count && count <= most {
            return Ok(());
        }
        Err(refused(format!(in self.alloc; "{count} arguments")))
    }

    pub(super) fn plan_close(&mut self, call: &Traced) -> Result<Option<Plan>, Stop> {
        match self.object_of(call)? {
            Some(on) => Ok(Some(self.closing(call, on)?)),
            None => Ok(None),
        }
    }

    /// A descriptor is closed.
    fn closing(&mut self, call: &Traced, on: On) -> Result<Plan, Stop> {
        let set = self.set_of(call.thread)?;
        self.tell(call.entered_at, call.thread, on.fd)?;
        let On { object, fd } = on;
        let end = answer(self.alloc, call, b"")?;
        let begin = format!(in self.alloc; "close {object}:{fd}")?;
        let after = After::Release { set, on };
        Ok(Plan::new(self.alloc, begin, end, after))
    }

    pub(super) fn plan_close_range(
        &mut self,
        call: &Traced,
        plans: &mut Vec<Plan>,
    ) -> Result<(), Stop> {
        self.check_count(&call.arguments, 3, 3)?;
        if has(argument(&call.arguments, 2), b"CLOEXEC") {
            return Ok(());
        }
        let set = self.set_of(call.thread)?;
        for place in 0..self.count_held(set) {
            let Some(held) = self.held_at(set, place) else {
                break;
            };
            if self.is_in_range(&call.arguments, held.fd)? {
                plans.push(self.closing(call, held.on())?)?;
            }
        }
        Ok(())
    }

    /// Whether a descriptor is between the first two arguments, or one of them.
    fn is_in_range(&self, text: &[u8], fd: u64) -> Result<bool, Stop> {
        let first = number(self.alloc, argument(text, 0))?;
        Ok(first <= fd && fd <= number(self.alloc, argument(text, 1))?)
    }

    pub(super) fn plan_dup(&mut self, call: &Traced) -> Result<Option<Plan>, Stop> {
        let copy = Copy {
            target: None,
            closes: false,
        };
        self.duplicate(call, &call.arguments, copy)
    }

    pub(super) fn plan_dup2(&mut self, call: &Traced) -> Result<Option<Plan>, Stop> {
        self.check_count(&call.arguments, 2, 2)?;
        self.duplicate_to(call, false)
    }

    pub(super) fn plan_dup3(&mut self, call: &Traced) -> Result<Option<Plan>, Stop> {
        self.check_count(&call.arguments, 3, 3)?;
        self.duplicate_to(call, has(argument(&call.arguments, 2), b"O_CLOEXEC"))
    }

    /// The first argument is copied to the second.
    fn duplicate_to(&mut self, call: &Traced, closes: bool) -> Result<Option<Plan>, Stop> {
        let target = Some(descriptor(self.alloc, argument(&call.arguments, 1))?);
        let copy = Copy { target, closes };
        self.duplicate(call, argument(&call.arguments, 0), copy)
    }

    /// A descriptor is copied.
    fn duplicate(
        &mut self,
        call: &Traced,
        source: &[u8],
        copy: Copy,
    ) -> Result<Option<Plan>, Stop> {
        match self.object_at(call.entered_at, call.thread, source)? {
            Some(on) => self.duplicate_object(call, on, copy),
            None => self.replace_target(call, copy),
        }
    }

    /// Another file's descriptor is copied: the copy may replace a descriptor of an object.
    fn replace_target(&mut self, call: &Traced, copy: Copy) -> Result<Option<Plan>, Stop> {
        let set = self.set_of(call.thread)?;
        let Some(target) = copy.target else {
            return Ok(None);
        };
        match self.held(set, target) {
            Some(held) if call.errno().is_none() && call.has_returned() => {
                Ok(Some(self.closing(call, held.on())?))
            }
            _ => Ok(None),
        }
    }

    fn duplicate_object(
        &mut self,
        call: &Traced,
        on: On,
        copy: Copy,
    ) -> Result<Option<Plan>, Stop> {
        let alloc = self.alloc;
        let set = self.set_of(call.thread)?;
        let On { object, fd } = on;
        let begin = match copy.target {
            Some(target) => format!(in alloc; "dup {object}:{fd} {target}")?,
            None => format!(in alloc; "dup {object}:{fd} -")?,
        };
        if !call.has_succeeded() {
            return simple(alloc, call, begin);
        }
        let made = descriptor(alloc, &call.returned)?;
        let end = format!(in alloc; "ok {made}")?;
        let held = Held {
            fd: made,
            object,
            closes: copy.closes,
        };
        let after = if made == fd {
            After::Nothing
        } else {
            After::BindIn { set, held }
        };
        Ok(Some(Plan::new(alloc, begin, Some(end), after)))
    }

    pub(super) fn plan_fcntl(&mut self, call: &Traced) -> Result<Option<Plan>, Stop> {
        let text = call.arguments.as_slice();
        let source = argument(text, 0);
        let Some(on) = self.object_at(call.entered_at, call.thread, source)? else {
            return Ok(None);
        };
        let has_value = count_of_arguments(text) == 3;
        match look_up(&COMMANDS, argument(text, 1)) {
            Some(Fcntl::Asks) => Ok(None),
            Some(Fcntl::Duplicates { closes }) if has_value => {
                let target = None;
                self.duplicate_object(call, on, Copy { target, closes })
            }
            Some(Fcntl::SetsFlags) if has_value => {
                self.nonblock(call, on, has(argument(text, 2), b"O_NONBLOCK"))
            }
            _ => {
                let wrong = "an fcntl of a userfault object that is no call of a log";
                Err(refuse(self.alloc, wrong))
            }
        }
    }

    /// A descriptor of another process is copied, not a call of a log.
    pub(super) fn plan_pidfd_getfd(&mut self, call: &Traced) -> Result<Option<Plan>, Stop>
        ensures silent { IfOk result (λ plan. plan ≡ None) }
    {
        if call.returned.ends_with(b"<anon_inode:[userfaultfd]>") {
            self.object_at(call.left_at, call.thread, &call.returned)?;
        }
        Ok(None)
    }
}
