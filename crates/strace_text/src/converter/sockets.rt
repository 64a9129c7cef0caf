//! Descriptors of objects that are sent over sockets: a message that is received has those of the message that was sent with the same bytes.

ghost use Rattle.std.specs.Prelude.{◌≡◌, None, IfOk, IfSome};

use super::Converter;
use crate::files::Held;
use crate::number::{decimal, descriptor_at};
use crate::plan::{After, Plan};
use crate::quoted::all_strings;
use crate::stop::Stop;
use crate::text::{has, is_same, split_once};
use crate::traced::Traced;
use std::alloc::Global;

/// A message that was sent with descriptors, and is not received yet.
#[derive(Drop)]
pub(super) struct Sent {
    bytes: Vec<u8>,
    /// The object of each descriptor, if it is one.
    objects: Vec<Option<u64>>,
}

/// The bytes of the message of a call.
fn bytes_of(alloc: Global, arguments: &[u8]) -> Result<Vec<u8>, Stop> {
    let Some((_, rest)) = split_once(arguments, b"msg_iov=[") else {
        return Ok(Vec::new(alloc));
    };
    match split_once(rest, b"], msg_iovlen=") {
        Some((parts, _)) => all_strings(alloc, parts),
        None => Ok(Vec::new(alloc)),
    }
}

/// The descriptors of the message of a call that succeeded, with what comes after them, if it has any.
fn rights_of(call: &Traced) -> Option<&[u8]> {
    if !call.has_succeeded() {
        return None;
    }
    let (_, rest) = split_once(&call.arguments, b"cmsg_type=SCM_RIGHTS, cmsg_data=[")?;
    Some(rest)
}

/// What comes after the descriptor at the front, if that is another one.
fn next_right(text: &[u8]) -> Option<&[u8]> {
    descriptor_at(text)?.rest.strip_prefix(b", ")
}

impl Converter {
    /// A message is sent, not a call of a log: notes the objects whose descriptors it has.
    pub(super) fn plan_sendmsg(&mut self, call: &Traced) -> Result<Option<Plan>, Stop>
        ensures silent { IfOk result (λ plan. plan ≡ None) }
    {
        let mut objects = Vec::new(self.alloc);
        let mut rights = rights_of(call);
        for _ in 0..call.arguments.len() {
            let Some(text) = rights else {
                break;
            };
            let on = self.object_at(call.entered_at, call.thread, text)?;
            objects.push(on.map(|on| on.object))?;
            rights = next_right(text);
        }
        if objects.iter().any(|object| object.is_some()) {
            let bytes = bytes_of(self.alloc, &call.arguments)?;
            self.sent.push(Sent { bytes, objects })?;
        }
        Ok(None)
    }

    /// A message is received, not a call of a log, and may have descriptors.
    pub(super) fn plan_recvmsg(&mut self, call: &Traced) -> Result<Option<Plan>, Stop>
        ensures silent { IfOk result (λ plan. IfSome plan (λ plan. plan.begin ≡ None)) }
    {
        if rights_of(call).is_none() {
            return Ok(None);
        }
        Ok(Some(Plan {
            begin: None,
            number: 0,
            messages: Vec::new(self.alloc),
            end: None,
            after: After::Receive,
        }))
    }

    /// The objects of the first message with these bytes that is not received yet.
    fn take_sent(&mut self, bytes: &[u8]) -> Option<Sent> {
        let place = self
            .sent
            .iter()
            .position(|sent| is_same(&sent.bytes, bytes))?;
        Some(self.sent.remove(place))
    }

    /// A message was received: its descriptors are those of the objects with which it was sent.
    pub(super) fn receive(&mut self, call: &Traced) -> Result<(), Stop> {
        let bytes = bytes_of(self.alloc, &call.arguments)?;
        let Some(sent) = self.take_sent(&bytes) else {
            return Ok(());
        };
        let mut rights = rights_of(call);
        for object in &sent.objects {
            let Some(text) = rights else {
                break;
            };
            self.receive_one(call, text, *object)?;
            rights = next_right(text);
        }
        Ok(())
    }

    /// The descriptor at the front of a text is this object's, if it is one, in the process that has received it.
    fn receive_one(&mut self, call: &Traced, text: &[u8], object: Option<u64>) -> Result<(), Stop> {
        let fd = descriptor_at(text).and_then(|found| decimal(found.word));
        let (Some(fd), Some(object)) = (fd, object) else {
            return Ok(());
        };
        let set = self.set_of(call.thread)?;
        let closes = has(&call.arguments, b"MSG_CMSG_CLOEXEC");
        self.put(set, Held { fd, object, closes })?;
        self.tell(call.left_at, call.thread, fd)
    }
}
