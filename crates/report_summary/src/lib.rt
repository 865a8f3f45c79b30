//! The text on an accepted module: what its entry points use and need, on one screen.
#![tactic(auto)]

mod block;
mod body;
mod counts;
mod detail;
mod flow;
mod globals;
mod headings;
mod pairs;
mod reached;
mod resources;
mod summary;

pub use detail::Detail;
pub use flow::FlowRules;
pub use summary::{MOST_BLOCKS, summary_text};
