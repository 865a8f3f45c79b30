//! Diagnostics as blocks of text: what is wrong, where, an excerpt of the function or of the JSON, and what to do.
#![tactic(auto)]

mod advice;
mod block;
mod causes;
mod chosen;
mod detail;
mod excerpts;
mod inputs;
mod json_excerpts;
mod labels;
mod places;
mod reasons;
mod refusals;
mod same;

pub use chosen::MOST_BLOCKS;
pub use detail::Detail;
pub use inputs::input_text;
pub use reasons::reasons_text;
pub use refusals::refusal_text;
