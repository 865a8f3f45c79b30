//! Excerpts of functions as text: the lines that have marks, and the heads of the blocks around them.
#![tactic(auto)]

mod body;
mod excerpt;
mod heads;
mod listing;
mod marks;
mod nesting;
mod reach;
mod rows;
mod signature;
mod sites;
mod steps;
mod users;

pub use excerpt::{excerpt_of, lines_of};
pub use marks::Mark;
