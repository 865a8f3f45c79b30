//! Errors of reading a module.
ghost use Rattle.std.specs.Prelude.{◌≡◌};

use std::alloc::AllocError;
use thiserror::Error;

/// The greatest length of a text in bytes.
pub const MOST_BYTES: usize = 268_435_456;

/// The requirement on a module's JSON that a value fails.
#[derive(Debug, Drop, Error)]
pub enum Wanted {
    /// A value of this description.
    #[error("{0}")]
    Value(&'static str),
    /// An integer from the first to the second.
    #[error("an integer from {0} to {1}")]
    Integer(i64, u64),
    /// An object with this field.
    #[error("an object with the field `{0}`")]
    Field(&'static str),
}

/// The reason why no module was read.
#[derive(Debug, Drop, Error)]
pub enum ReadError {
    /// Allocation failed.
    #[error("out of memory")]
    OutOfMemory,
    /// The text has more than `MOST_BYTES` bytes.
    #[error("the text has more than 268,435,456 bytes")]
    TooLong,
    /// No JSON goes on with this byte, counted from 0, or it is the first that isn't UTF-8. Of a text that is too short it is the length.
    #[error("byte {byte}: no JSON goes on here")]
    NotJson {
        byte: usize,
    },
    /// The array or object that begins at this byte is inside 128 others.
    #[error("byte {byte}: arrays and objects nest more than 128 deep")]
    TooDeep {
        byte: usize,
    },
    /// The text is JSON, but a module has another value at the path. The path of the whole text is empty.
    #[error("`{path}`: wanted is {wanted}, and found is {found}")]
    NotModule {
        /// The path to the value, as `functions[2].arguments`; empty for the root.
        path: String,
        /// The value that is required there.
        wanted: Wanted,
        /// A short description of the value that is there.
        found: String,
    },
}

impl From<AllocError> for ReadError {
    ghost use Rattle.shader_json_reader.specs.declared.error.ReadError.TheVariants.{OutOfMemory};

    ghost from_gives = { λ _ e. e ≡ OutOfMemory };

    fn from(_error: AllocError) -> ReadError {
        ReadError::OutOfMemory
    }
}
