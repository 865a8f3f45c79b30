//! Where something stands in a module: the function or the like, its name, the way to the statement, and the JSON pointer.
#![tactic(auto)]

mod body_place;
mod json_paths;
mod outline;
mod paths;
mod pointers;
mod sites;
mod stages;
mod words;

pub use body_place::{BodyPlace, place_of_body};
pub use json_paths::path_of_pointer;
pub use outline::Outline;
pub use paths::{PathStep, StatementAt, StatementPath, Wanted, find_statement};
pub use pointers::{
    argument_pointer, body_pointer, expression_pointer, item_pointer, statement_pointer,
    statement_text,
};
pub use sites::{expression_at, function_of, name_at, named_at, outline_at, statement_at};
pub use stages::stage_word;
pub use words::{body_text, place_text};
