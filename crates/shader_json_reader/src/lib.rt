//! The basis of reading a module from JSON: texts, numbers, names, and errors with the path to the rejected value.
#![tactic(auto)]

mod context;
mod error;
mod failure;
mod found;
mod grammar;
pub mod laws;
mod lists;
mod names;
mod numbers;
mod text;

pub use context::Context;
pub use error::{MOST_BYTES, ReadError, Wanted};
pub use failure::{Failure, Refusal, within};
pub use grammar::Stop;
pub use names::flags;
pub use numbers::{double_bits, signed, single_bits, unsigned};
pub use text::{parse, refusal};
