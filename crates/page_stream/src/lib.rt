//! The frames that the two nodes of a migration send each other.
//!
//! A [`Frame`] keeps its pages and lists in types that callers see as sets, maps and lists: [`mig_base::PageSet`],
//! [`area_map::AreaMap`], [`mig_base::PageBytes`], [`Pages`] and [`Waiting`].
//!
//! [`Frame::is_well_formed`] says whether a frame may be sent, [`Frame::text_len`] how long its text is, its bytes on a wire, and
//! [`Frame::effect`] what its taking reports.
//! [`encode_into`] writes the text. [`encode_page_into`] writes a page from where its bytes stand, without copying them first;
//! [`page_head`] and [`run_head`] are the text in front of bytes that the caller sends itself.
//!
//! The crate decides nothing about a migration: which node sends a frame and when, and how the other handles it, is for the nodes.
//!
//! Contracts see a frame as the machine's (`mig_model`, `specs/Wire.antt`), by `frame_of` of `specs/Frames.antt`. The rules are
//! `IsFrame` of `specs/Bounds.antt` there, and the length of its text that of `specs/Lengths.antt`. `specs/Texts.antt` defines the text and
//! which frames can be read back from it, `specs/Flight.antt` properties of the frames in flight: each has a text, which has the length
//! that the machine counts. [`laws`] has the laws on which a codec rests.
#![tactic(auto)]

mod effect;
pub mod frame;
pub mod laws;
pub mod lengths;
pub mod lists;
mod rules;
pub mod writing;

pub use crate::frame::Frame;
pub use crate::lists::{Pages, Waiting};
pub use crate::writing::{encode, encode_into, encode_page_into, page_head, run_head};
