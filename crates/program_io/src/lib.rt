//! Input and output for programs: reads a whole input up to a limit, and writes a whole text, over
//! devices that may fail.
#![tactic(auto)]

mod reading;
mod sink;
mod source;
mod writing;

pub use reading::{InputError, read_input};
pub use sink::{Sink, ToWriter};
pub use source::{Failed, FromReader, Source};
pub use writing::write_all;
