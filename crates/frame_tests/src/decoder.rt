//! `Decoder`: what it answers, against bytes that were worked out by hand. Each frame that it answers is written again and compared with
//! the bytes that it took up.

mod faults;
mod frames;
mod heads;
pub mod reading;
mod vectors;
