//! `Wire`: frames that are sent, bytes that come, and frames that are read from them.

mod bytes;
mod calls;
mod kinds;
