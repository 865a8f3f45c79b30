//! What is said of a type without a layout.

use crate::wording::Wording;
use report_diagnostics::Text;
use report_names::{MOST_NESTED, global_text, type_text};
use shader_arena::Handle;
use shader_ir::proc::{LayoutError, LayoutErrorInner};
use shader_ir::{ArraySize, Module, TypeInner, mark};
use std::alloc::{AllocError, Global};

/// Returns a number with commas between its thousands.
fn grouped_text(alloc: Global, number: u64) -> Result<String, AllocError> {
    let digits = number.to_string(alloc)?;
    let mut text = String::new(alloc);
    let mut left = digits.len();
    for (index, digit) in digits.chars().enumerate() {
        if index > 0 && left % 3 == 0 {
            text.push_str(",")?;
        }
        text.push(digit)?;
        left = left.saturating_sub(1);
    }
    Ok(text)
}

/// Returns the width of the scalars of a type, and the way to it in the JSON.
fn width_of(inner: &TypeInner) -> Option<(u8, &'static str)> {
    match inner {
        TypeInner::Scalar(scalar) => Some((scalar.width, ".inner.Scalar.width")),
        TypeInner::Atomic(scalar) => Some((scalar.width, ".inner.Atomic.width")),
        TypeInner::Vector { scalar, .. } => Some((scalar.width, ".inner.Vector.scalar.width")),
        TypeInner::Matrix { scalar, .. } => Some((scalar.width, ".inner.Matrix.scalar.width")),
        TypeInner::CooperativeMatrix { scalar, .. } => {
            Some((scalar.width, ".inner.CooperativeMatrix.scalar.width"))
        }
        TypeInner::ValuePointer { scalar, .. } => {
            Some((scalar.width, ".inner.ValuePointer.scalar.width"))
        }
        _ => None,
    }
}

/// Returns what is said of a scalar of odd width, if the type has it.
fn width_wording(alloc: Global, inner: &TypeInner) -> Result<Option<Wording>, AllocError> {
    match width_of(inner) {
        Some((width, field)) => {
            let message = format!(in alloc; "a scalar of {width} bytes has no layout")?;
            let label = "the width must be a power of two".to_string(alloc)?;
            let mut wording = Wording::of(alloc, message).labelled(None, label);
            wording.field = Some(Text::from(field.to_string(alloc)?));
            Ok(Some(wording))
        }
        None => Ok(None),
    }
}

/// Adds how many bytes an array has.
fn add_size(alloc: Global, wording: &mut Wording, inner: &TypeInner) -> Result<(), AllocError> {
    if let TypeInner::Array {
        size: ArraySize::Constant(count),
        stride,
        ..
    } = inner
    {
        let (count, stride) = (count.get() as u64, *stride as u64);
        let elements = grouped_text(alloc, count)?;
        let each = grouped_text(alloc, stride)?;
        let bytes = grouped_text(alloc, count.saturating_mul(stride))?;
        wording.note(format!(in alloc;
            "it has {elements} elements of {each} bytes each: {bytes} bytes"
        )?)?;
    }
    Ok(())
}

/// Adds the first global variable of a type, if there is one.
fn add_variable(
    alloc: Global,
    module: &Module,
    wording: &mut Wording,
    ty: Handle<mark::Type>,
) -> Result<(), AllocError> {
    for (handle, variable) in module.global_variables.iter() {
        if variable.ty == ty {
            let name = global_text(alloc, module, handle)?;
            return wording.note(format!(in alloc; "it is the type of global variable `{name}`")?);
        }
    }
    Ok(())
}

/// Returns what is said of a type that is too large.
fn size_wording(
    alloc: Global,
    module: &Module,
    ty: Handle<mark::Type>,
    inner: &TypeInner,
) -> Result<Wording, AllocError> {
    let text = type_text(alloc, module, ty, MOST_NESTED)?;
    let message = format!(in alloc; "`{text}` has no layout")?;
    let label = "too large".to_string(alloc)?;
    let mut wording = Wording::of(alloc, message).labelled(None, label);
    add_size(alloc, &mut wording, inner)?;
    let limit = "a type has at most 1,073,741,824 bytes, and an array as many elements";
    wording.note(limit.to_string(alloc)?)?;
    add_variable(alloc, module, &mut wording, ty)?;
    Ok(wording)
}

/// Returns what is said of a type without a layout. Of a type that isn't found, that is a general sentence.
///
/// # Errors
///
/// `AllocError` if an allocation fails.
pub fn layout_wording(
    alloc: Global,
    module: &Module,
    error: &LayoutError,
    general: &str,
) -> Result<Wording, AllocError> {
    let found = match module.types.try_get(error.ty) {
        Some(found) => match error.inner {
            LayoutErrorInner::NonPowerOfTwoWidth => width_wording(alloc, &found.inner)?,
            LayoutErrorInner::TooLarge => {
                Some(size_wording(alloc, module, error.ty, &found.inner)?)
            }
            _ => None,
        },
        None => None,
    };
    match found {
        Some(wording) => Ok(wording),
        None => Ok(Wording::of(alloc, general.to_string(alloc)?)),
    }
}
