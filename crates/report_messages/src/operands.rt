//! What is said of an operand of the wrong kind.

use crate::phrases::type_phrase;
use crate::typed::Typed;
use crate::wording::Wording;
use shader_arena::Handle;
use shader_ir::{TypeInner, mark};
use std::alloc::{AllocError, Global};

/// Returns a sentence, and marks an operand with its type and with what is wanted.
fn wanting(
    alloc: Global,
    typed: &Typed<'_>,
    operand: Handle<mark::Expression>,
    message: String,
    wanted: &str,
) -> Result<Wording, AllocError> {
    let phrase = type_phrase(alloc, typed, operand)?;
    let label = format!(in alloc; "{phrase}, where {wanted} is wanted")?;
    Ok(Wording::of(alloc, message).labelled(Some(operand), label))
}

/// Returns what is said of a vector that is filled from what is no scalar.
pub fn not_a_scalar(
    alloc: Global,
    typed: &Typed<'_>,
    operand: Handle<mark::Expression>,
) -> Result<Wording, AllocError> {
    let name = typed.operand_text(alloc, operand)?;
    let message = format!(in alloc; "a vector can't be filled from `{name}`")?;
    wanting(alloc, typed, operand, message, "a scalar")
}

/// Returns what is said of components that are taken of what is no vector.
pub fn not_a_vector(
    alloc: Global,
    typed: &Typed<'_>,
    operand: Handle<mark::Expression>,
) -> Result<Wording, AllocError> {
    let name = typed.operand_text(alloc, operand)?;
    let message = format!(in alloc; "`{name}` has no components to reorder")?;
    wanting(alloc, typed, operand, message, "a vector")
}

/// Returns what is said of a load from what is no pointer, or of a matrix from what is no pointer to numbers.
pub fn not_a_pointer(
    alloc: Global,
    typed: &Typed<'_>,
    operand: Handle<mark::Expression>,
) -> Result<Wording, AllocError> {
    let name = typed.operand_text(alloc, operand)?;
    match typed.inner(operand) {
        Some(TypeInner::Pointer { .. }) => {
            let message = format!(in alloc; "`{name}` doesn't point to numbers")?;
            wanting(alloc, typed, operand, message, "a pointer to numbers")
        }
        _ => {
            let message = format!(in alloc; "`{name}` isn't a pointer")?;
            wanting(alloc, typed, operand, message, "a pointer")
        }
    }
}

/// Returns what is said of a texture that is none.
pub fn not_an_image(
    alloc: Global,
    typed: &Typed<'_>,
    operand: Handle<mark::Expression>,
) -> Result<Wording, AllocError> {
    let name = typed.operand_text(alloc, operand)?;
    let message = format!(in alloc; "`{name}` isn't a texture")?;
    wanting(alloc, typed, operand, message, "a texture")
}
