//! The names of naga's `proc::index`: lengths, known indexes and bounds checks.
pub use shader_bounds::{
    BoundsCheckPolicies, BoundsCheckPolicy, GuardedIndex, IndexableLength, IndexableLengthError,
    IndexableLengths, ToIndexableLength, access_needs_check, base_length, find_checked_indexes,
    known_index_among, length_of_base, oob_local_types, sizes_known,
};
