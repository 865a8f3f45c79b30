//! The earlier type that is equal to another one, by their JSON.

use crate::finds::{Part, find};
use crate::spans::bytes_of;
use crate::steps::steps_of;
use crate::walks::walk;
use json::{Error, MAX_DEPTH, Reader, Scratch, Value, to_vec};
use std::alloc::{AllocError, Global};

/// Returns the next value of a text in its shortest form, if there is one.
fn next_text(alloc: Global, reader: &mut Reader<'_>) -> Result<Option<Vec<u8>>, AllocError> {
    match Value::read(alloc, reader, MAX_DEPTH) {
        Ok(value) => Ok(Some(to_vec(alloc, &value)?)),
        Err(Error::OutOfMemory) => Err(AllocError),
        Err(_) => Ok(None),
    }
}

/// Returns the first of the types before an index that has this text in its shortest form.
fn first_equal(
    alloc: Global,
    text: &str,
    wanted: &[u8],
    before: usize,
) -> Result<Option<usize>, AllocError> {
    let Some(steps) = steps_of(alloc, "types[0]")? else {
        return Ok(None);
    };
    let mut scratch = Scratch::new(alloc);
    let mut reader = Reader::new(text, &mut scratch)?;
    if !walk(&mut reader, steps.as_slice()) {
        return Ok(None);
    }
    for index in 0..before {
        match next_text(alloc, &mut reader)? {
            Some(found) => if found.as_slice() == wanted {
                return Ok(Some(index));
            },
            None => return Ok(None),
        }
    }
    Ok(None)
}

/// Returns the index in the path of a type, as `types[6]`.
fn type_index(path: &str) -> Option<usize> {
    let digits = path.strip_prefix("types[")?.strip_suffix(']')?;
    digits.parse::<usize>().ok()
}

/// Returns the value at a path in its shortest form, if it is found.
fn value_text(alloc: Global, input: &[u8], path: &str) -> Result<Option<Vec<u8>>, AllocError> {
    let Some(found) = find(alloc, input, Part::Value, path)? else {
        return Ok(None);
    };
    let Some(span) = found.span else {
        return Ok(None);
    };
    let mut scratch = Scratch::new(alloc);
    match Value::from_slice(alloc, bytes_of(input, span), &mut scratch) {
        Ok(value) => Ok(Some(to_vec(alloc, &value)?)),
        Err(Error::OutOfMemory) => Err(AllocError),
        Err(_) => Ok(None),
    }
}

/// Returns the index of the type at a path, as `types[6]`, and that of the first type with the same JSON, if it has an earlier one.
///
/// # Errors
///
/// `AllocError` if an allocation fails.
pub fn equal_types(
    alloc: Global,
    input: &[u8],
    path: &str,
) -> Result<Option<(usize, usize)>, AllocError> {
    let Some(index) = type_index(path) else {
        return Ok(None);
    };
    let Ok(text) = str::from_utf8(input) else {
        return Ok(None);
    };
    let Some(wanted) = value_text(alloc, input, path)? else {
        return Ok(None);
    };
    match first_equal(alloc, text, wanted.as_slice(), index)? {
        Some(earlier) => Ok(Some((index, earlier))),
        None => Ok(None),
    }
}
