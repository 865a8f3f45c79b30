//! What is said of operands that don't fit an operation.

use crate::phrases::{type_phrase, with_article};
use crate::typed::Typed;
use crate::wording::Wording;
use report_names::{binary_word, relational_word, scalar_text};
use shader_ir::{Expression, Scalar};
use std::alloc::{AllocError, Global};

/// Returns a sentence, and marks the whole expression.
fn undefined(alloc: Global, message: String) -> Result<Option<Wording>, AllocError> {
    let label = "isn't defined for these types".to_string(alloc)?;
    Ok(Some(Wording::of(alloc, message).labelled(None, label)))
}

/// Returns what is said of a value that can't be converted, if the expression is a conversion.
fn conversion_wording(
    alloc: Global,
    typed: &Typed<'_>,
    expression: &Expression,
) -> Result<Option<Wording>, AllocError> {
    let Expression::As {
        expr,
        kind,
        convert,
    } = expression
    else {
        return Ok(None);
    };
    let given = type_phrase(alloc, typed, *expr)?;
    match convert {
        Some(width) => {
            let wanted = Scalar {
                kind: *kind,
                width: *width,
            };
            let wanted = scalar_text(alloc, wanted)?;
            let wanted = with_article(alloc, wanted.as_str())?;
            undefined(
                alloc,
                format!(in alloc; "{given} can't be converted to {wanted}")?,
            )
        }
        None => undefined(alloc, format!(in alloc; "`bitcast` can't take {given}")?),
    }
}

/// Returns what is said of an operation whose operands don't fit it, if it is one.
pub fn operation_wording(alloc: Global, typed: &Typed<'_>) -> Result<Option<Wording>, AllocError> {
    let Some(expression) = typed.expression() else {
        return Ok(None);
    };
    match expression {
        Expression::Binary { op, left, right } => {
            let word = binary_word(*op);
            let left = type_phrase(alloc, typed, *left)?;
            let right = type_phrase(alloc, typed, *right)?;
            undefined(
                alloc,
                format!(in alloc; "`{word}` can't take {left} and {right}")?,
            )
        }
        Expression::Relational { fun, argument } => {
            let word = relational_word(*fun);
            let given = type_phrase(alloc, typed, *argument)?;
            undefined(alloc, format!(in alloc; "`{word}` can't take {given}")?)
        }
        Expression::As { .. } => conversion_wording(alloc, typed, expression),
        _ => Ok(None),
    }
}
