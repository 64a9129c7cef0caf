//! Reading frames from the bytes of a stream.
//!
//! A [`Decoder`] takes a stream in pieces of any length and returns each frame as soon as it is whole. It reads both versions of the
//! texts; the first frame fixes the version, and a header of the other version is then a fault. A [`StreamFault`] is found exactly
//! where it first stands: in a header as soon as its 12 bytes are there, in a body once it is whole. `page_stream` writes frames.
//!
//! The text of a frame is defined in `page_stream`, `specs/Texts.antt`. Here `specs/Versions.antt` defines the frames of each version and
//! the lengths of their bodies, `specs/Headers.antt` a header, `specs/Streams.antt` the frames and the fault of a stream of bytes, and
//! `specs/Feeding.antt` the effect of a piece on a decoder. [`laws`] has the laws of every cutting of a stream.
#![tactic(auto)]

mod body;
mod commands;
mod decoder;
mod fault;
mod fields;
mod head;
mod header;
pub mod laws;
mod lists;
mod stream;
mod tag;
mod version;

pub use crate::decoder::Decoder;
pub use crate::fault::StreamFault;
pub use crate::head::{FrameHead, Head, read_head};
pub use crate::stream::{front_len, lacking, read_text};
pub use crate::version::Version;
