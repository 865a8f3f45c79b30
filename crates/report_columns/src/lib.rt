//! Lines in two columns, as text output lists declarations.
#![tactic(auto)]

mod columns;
mod width;

pub use columns::{Row, rows_text};
pub use width::{columns_of, padded_text};
