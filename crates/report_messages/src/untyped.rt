//! What is said of an expression without a type.

use crate::absent::{no_argument, no_result, no_struct};
use crate::access::{not_indexable, past_the_end, pointee_not_indexable};
use crate::no_overload::overload_wording;
use crate::operands::{not_a_pointer, not_a_scalar, not_a_vector, not_an_image};
use crate::operations::operation_wording;
use crate::typed::Typed;
use crate::wording::Wording;
use report_names::name_text;
use report_places::BodyPlace;
use shader_arena::Handle;
use shader_ir::{Module, mark};
use shader_resolve::ResolveError;
use std::alloc::{AllocError, Global};

/// Returns what is said of an error by what it names, if that is found.
fn found_wording(
    alloc: Global,
    typed: &Typed<'_>,
    error: &ResolveError,
) -> Result<Option<Wording>, AllocError> {
    match error {
        ResolveError::OutOfBoundsIndex { expr, index } => {
            past_the_end(alloc, typed, *expr, *index)
        }
        ResolveError::InvalidAccess { expr, .. } => not_indexable(alloc, typed, *expr),
        ResolveError::InvalidSubAccess { ty, .. } => pointee_not_indexable(alloc, typed, *ty),
        ResolveError::InvalidScalar(expr) => Ok(Some(not_a_scalar(alloc, typed, *expr)?)),
        ResolveError::InvalidVector(expr) => Ok(Some(not_a_vector(alloc, typed, *expr)?)),
        ResolveError::InvalidPointer(expr) => Ok(Some(not_a_pointer(alloc, typed, *expr)?)),
        ResolveError::InvalidImage(expr) => Ok(Some(not_an_image(alloc, typed, *expr)?)),
        ResolveError::IncompatibleOperands(_) => operation_wording(alloc, typed),
        ResolveError::BuiltinArgumentsInvalid(_) => overload_wording(alloc, typed),
        ResolveError::FunctionArgumentNotFound(index) => {
            Ok(Some(no_argument(alloc, typed, *index)?))
        }
        ResolveError::FunctionReturnsVoid => no_result(alloc, typed),
        ResolveError::MissingSpecialType => no_struct(alloc, typed),
        ResolveError::FunctionNotDefined { name } => {
            let name = name_text(alloc, name.as_str())?;
            let message = format!(in alloc; "there is no function `{name}`")?;
            Ok(Some(Wording::of(alloc, message)))
        }
        ResolveError::OutOfMemory => Ok(None),
    }
}

/// Returns what is said of an expression without a type. If its operands have none either, that is a general sentence.
///
/// # Errors
///
/// `AllocError` if an allocation fails.
pub fn type_wording(
    alloc: Global,
    module: &Module,
    place: &BodyPlace,
    handle: Handle<mark::Expression>,
    error: &ResolveError,
    general: &str,
) -> Result<Wording, AllocError> {
    let typed = Typed::of(alloc, module, place, handle)?;
    match found_wording(alloc, &typed, error)? {
        Some(wording) => Ok(wording),
        None => Ok(Wording::of(alloc, general.to_string(alloc)?)),
    }
}
