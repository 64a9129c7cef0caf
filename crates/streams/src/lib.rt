//! What the programs have in common, whatever they read: their input and output, how they say on standard error why these failed, and the
//! exit statuses.
//!
//! The streams remember why they failed (`Watched`), so that the faults of a run stay plain words. Nothing here knows a command line or a
//! language: `Given` is what one says of a command's input.
#![tactic(auto)]

mod arguments;
mod input;
mod opening;
mod status;
mod tap;
mod watched;

pub use arguments::name_bad_argument;
pub use input::Input;
pub use opening::{
    Given, TOO_MANY_READS, gives_reasons, open_file, open_input, open_named, open_output,
    say_input, say_output, standard_input,
};
pub use status::{
    ALL_DONE, BAD_COMMAND_OR_SCRIPT, NO_FLAT_RUN, NO_MEMORY, NOTHING_TO_JUDGE, READ_OR_WRITE_FAULT,
    UNDECIDED,
};
pub use tap::{Tap, can_tap, make_tap};
pub use watched::{Watched, say_reason};
