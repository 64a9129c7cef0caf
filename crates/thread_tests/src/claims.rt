//! `Claims`, by one seat, by two seats, and by two threads. `close` is called again with the claims and the seat that it handed back.

pub mod again;
mod claiming;
pub mod rows;
mod two_threads;
