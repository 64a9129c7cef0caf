//! `postmig` for C: worlds and decoders behind handles, whole scripts and transcripts.
//!
//! A [`Handle`](handle::Handle) is a word that C sets to null before the first call, and leaves to these functions after that. `worlds` has
//! the calls on a world, with `copies`, `would` and `shown` for what leaves it as it is, `frames` those on a decoder of frames, `scripts`
//! those on a whole script or transcript, and `reasons` those that say what is wrong with lines. Each returns a status of `status`.
//! `include/postmig.h` declares them, and `docs/USING.md` says what a caller owes.
//!
//! A decoder is a [`FrameQueue`](queue::FrameQueue): C has none of the types of a frame, and takes one frame at a time, as the numbers of
//! `numbers` and the bytes of its text. `specs/Queues.antt` defines the effect of its calls, and `specs/Numbers.antt` the numbers.
//!
//! Every export takes `&mut Handle`, so the raw pointer stays in the small functions of `handle` and `unboxed`, whose proofs are by hand.
#![tactic(auto)]

mod commands;
mod copies;
mod destination_calls;
mod destination_steps;
mod effects;
mod frames;
mod handle;
mod heads;
mod node_calls;
mod numbers;
mod pages;
mod processors;
mod questions;
mod queue;
mod reasons;
mod refusals;
mod room;
mod runs;
mod scripts;
mod shown;
mod source_calls;
mod source_steps;
mod status;
mod told;
mod traces;
mod unboxed;
mod worlds;
mod would;
