//! JSON pointers (RFC 6901) into a module as paths, in the notation of errors of the input.

use std::alloc::{AllocError, Global};

/// Adds a piece of a JSON pointer to a path: an index in brackets, or a name behind a point.
fn add_piece(path: &mut String, piece: &str) -> Result<(), AllocError> {
    let is_index = piece.chars().all(|character| character.is_ascii_digit());
    if is_index {
        path.push_str("[")?;
        path.push_str(piece)?;
        path.push_str("]")
    } else {
        if !path.is_empty() {
            path.push_str(".")?;
        }
        path.push_str(piece)
    }
}

/// Returns a JSON pointer to an item of the module as a path, as `types[1].inner`.
///
/// # Errors
///
/// `AllocError` if an allocation fails.
pub fn path_of_pointer(alloc: Global, pointer: &str) -> Result<String, AllocError> {
    let mut path = String::new(alloc);
    for piece in pointer.split('/').skip(1) {
        add_piece(&mut path, piece)?;
    }
    Ok(path)
}
