//! Prints types, rules and names as text, and reads types and names.
#![tactic(auto)]

mod builtins;
mod bytes;
mod insertion;
pub mod laws;
mod numbers;
mod pieces;
mod scalars;
mod shape;
mod texts;
mod types;

pub use builtins::builtin_from_word;
pub use bytes::index_of;
pub use insertion::insert_type;
pub use numbers::number_from_word;
pub use pieces::Pieces;
pub use scalars::ScalarText;
pub use texts::{ArgumentsText, ConclusionText, RulesText};
pub use types::{PlainType, SpelledType};
