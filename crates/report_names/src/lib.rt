//! How diagnostics name things: items by their names, and types, built-in functions, operators and literals as WGSL spells them.
#![tactic(auto)]

mod declarations;
mod hidden;
mod images;
mod items;
mod literals;
mod names;
mod operators;
mod scalars;
mod statements;
mod types;

pub use declarations::declaration_text;
pub use hidden::is_hidden;
pub use images::{access_word, format_word, image_text};
pub use items::{
    ItemKind, argument_text, constant_text, function_text, global_text, item_text, kind_word,
    local_text, number_text, override_text,
};
pub use literals::literal_text;
pub use names::{MOST_COLUMNS, escape_of, name_text};
pub use operators::{
    binary_word, component_word, derivative_word, math_word, relational_word, unary_word,
};
pub use scalars::{cooperative_text, matrix_text, scalar_text, vector_text, vector_word};
pub use statements::{
    atomic_word, barrier_text, collective_text, gather_word, image_atomic_word, memory_barrier_text,
};
pub use types::{MOST_NESTED, space_word, type_text, unlisted_text};
