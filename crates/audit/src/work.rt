//! What there is to judge in a log: messages that were read, and pages that were put.

use call_log::log::Log;
use call_log::log_call::{LogCall, has_put};
use std::fmt;
use uffd_log::{Call, Errno};

/// Why nothing of a log could be judged.
#[derive(Clone, Copy)]
pub(crate) enum Unjudged {
    /// It has no call.
    NoCall,
    /// No call is on a userfault object.
    NoObject,
    /// No message was read, and no page was put or found there.
    NoWork,
}

impl fmt::Display for Unjudged {
    fn fmt<W: fmt::Write>(&self, f: &mut fmt::Formatter<W>) -> fmt::Result {
        match *self {
            Unjudged::NoCall => write!(f, "the log has no call"),
            Unjudged::NoObject => write!(f, "no userfault object was opened or used"),
            Unjudged::NoWork => write!(f, "no message was read, and no page was put"),
        }
    }
}

/// Whether a call opened an object, or is on one.
fn has_object(call: &LogCall) -> bool {
    call.object().is_some() || matches!(call.call, Call::Open { .. }) && call.is_ok()
}

/// Whether a call has put a page, or has found it there.
fn puts(call: &LogCall) -> bool {
    let has_met = has_put(call) || call.errno() == Some(Errno::Eexist);
    call.install_mode().is_some() && has_met
}

/// Why nothing of a log could be judged, if that is so.
pub(crate) fn nothing_in(log: &Log) -> Option<Unjudged> {
    let mut nothing = Unjudged::NoCall;
    for place in 0..u32::MAX {
        let Some(call) = log.call(place) else {
            return Some(nothing);
        };
        if puts(&call) || !log.messages_of(&call).is_empty() {
            return None;
        }
        nothing = match nothing {
            Unjudged::NoWork => Unjudged::NoWork,
            _ if has_object(&call) => Unjudged::NoWork,
            _ => Unjudged::NoObject,
        };
    }
    Some(nothing)
}
