//! The requests in the lines of an input, and the replies to them.
#![tactic(auto)]

mod answer;
mod call;
mod conversion;
pub mod laws;
mod layout;
mod lines;
mod reply;
mod request;
mod samples;

pub use answer::{Answer, Outcome};
