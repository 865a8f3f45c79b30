//! What is said of arguments, results and types that a function or the module lacks.

use crate::lists::counted_text;
use crate::typed::Typed;
use crate::wording::Wording;
use report_names::{function_text, math_word, scalar_text, vector_text};
use report_places::body_text;
use shader_arena::Handle;
use shader_ir::{Expression, Scalar, TypeInner, mark};
use std::alloc::{AllocError, Global};

/// Returns what is said of an argument that the function lacks.
pub fn no_argument(alloc: Global, typed: &Typed<'_>, index: u32) -> Result<Wording, AllocError> {
    let message = match typed.function {
        Some(function) => {
            let owner = body_text(alloc, typed.module, &typed.place)?;
            let count = counted_text(alloc, function.arguments.len(), "argument")?;
            format!(in alloc; "`argument#{index}` doesn't exist: {owner} takes {count}")?
        }
        None => {
            format!(in alloc; "`argument#{index}` doesn't exist: a constant has no arguments")?
        }
    };
    let label = "no such argument".to_string(alloc)?;
    Ok(Wording::of(alloc, message).labelled(None, label))
}

/// Returns what is said of the result of a function that returns nothing.
pub fn no_result(alloc: Global, typed: &Typed<'_>) -> Result<Option<Wording>, AllocError> {
    let Some(Expression::CallResult(callee)) = typed.expression() else {
        return Ok(None);
    };
    let name = function_text(alloc, typed.module, *callee)?;
    let message = format!(in alloc; "`{name}` returns nothing, so its result can't be used")?;
    let label = "has no value".to_string(alloc)?;
    Ok(Some(Wording::of(alloc, message).labelled(None, label)))
}

/// Returns the scalar or the vector that an operand is.
fn number_text(
    alloc: Global,
    typed: &Typed<'_>,
    operand: Handle<mark::Expression>,
) -> Result<Option<String>, AllocError> {
    match typed.inner(operand) {
        Some(TypeInner::Scalar(scalar)) => Ok(Some(scalar_text(alloc, concrete(*scalar))?)),
        Some(TypeInner::Vector { size, scalar }) => {
            Ok(Some(vector_text(alloc, *size, concrete(*scalar))?))
        }
        _ => Ok(None),
    }
}

/// Returns the scalar to which an abstract one is converted; of another one itself.
fn concrete(scalar: Scalar) -> Scalar {
    match scalar {
        Scalar::ABSTRACT_INT | Scalar::ABSTRACT_FLOAT => Scalar::F32,
        _ => scalar,
    }
}

/// Returns what is said of a built-in function whose struct the module lacks.
fn no_struct_of(alloc: Global, name: &str) -> Result<Wording, AllocError> {
    let message = format!(in alloc; "the module lacks the struct that `{name}` returns")?;
    let label = "has this struct for its type".to_string(alloc)?;
    Ok(Wording::of(alloc, message).labelled(None, label))
}

/// Adds that the module has no result type for what `frexp` or `modf` is called with.
fn add_predeclared(
    alloc: Global,
    typed: &Typed<'_>,
    wording: &mut Wording,
    operand: Handle<mark::Expression>,
) -> Result<(), AllocError> {
    if let Some(text) = number_text(alloc, typed, operand)? {
        wording.note(format!(in alloc;
            "`special_types.predeclared_types` in the JSON has no such type for `{text}`"
        )?)?;
    }
    let how = "serde_json can't print naga's map of these types: print it as an array of pairs";
    wording.note(how.to_string(alloc)?)
}

/// Returns what is said of a result whose struct the module lacks.
pub fn no_struct(alloc: Global, typed: &Typed<'_>) -> Result<Option<Wording>, AllocError> {
    let Some(expression) = typed.expression() else {
        return Ok(None);
    };
    match expression {
        Expression::Math { fun, arg, .. } => {
            let mut wording = no_struct_of(alloc, math_word(*fun))?;
            add_predeclared(alloc, typed, &mut wording, *arg)?;
            Ok(Some(wording))
        }
        Expression::RayQueryGetIntersection { committed, .. } => {
            let name = if *committed {
                "rayQueryGetCommittedIntersection"
            } else {
                "rayQueryGetCandidateIntersection"
            };
            let mut wording = no_struct_of(alloc, name)?;
            let note = "`special_types.ray_intersection` in the JSON is null";
            wording.note(note.to_string(alloc)?)?;
            Ok(Some(wording))
        }
        Expression::RayQueryVertexPositions { committed, .. } => {
            let name = if *committed {
                "getCommittedHitVertexPositions"
            } else {
                "getCandidateHitVertexPositions"
            };
            let mut wording = no_struct_of(alloc, name)?;
            let note = "`special_types.ray_vertex_return` in the JSON is null";
            wording.note(note.to_string(alloc)?)?;
            Ok(Some(wording))
        }
        _ => Ok(None),
    }
}
