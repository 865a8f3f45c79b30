//! Bounds checks, as naga's `proc::index`: how many items of a type an index may name, which indexes are known, and which of a function's
//! accesses a back end has to check under given policies.
#![tactic(auto)]

mod chains;
mod checked;
mod error;
mod guarded;
mod indexes;
pub mod laws;
mod lengths;
mod locals;
mod policies;
mod typed;

pub use checked::find_checked_indexes;
pub use error::IndexableLengthError;
pub use guarded::{GuardedIndex, access_needs_check, length_of_base};
pub use indexes::known_index_among;
pub use lengths::{IndexableLength, IndexableLengths, ToIndexableLength, base_length, sizes_known};
pub use locals::oob_local_types;
pub use policies::{BoundsCheckPolicies, BoundsCheckPolicy};
