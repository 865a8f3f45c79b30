//! Draws structs, their bytes in rows of 16, and finds an order of their members that takes fewer bytes.
#![tactic(auto)]

mod labels;
mod orders;
mod pieces;
mod rows;

pub use labels::LabelText;
pub use orders::{MOST_ORDERED, Order, OrderText, smaller_order, span_of};
pub use pieces::{Piece, Slot, pieces_of};
pub use rows::{DrawingText, ROW_BYTES};
