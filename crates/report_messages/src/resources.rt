//! What is said of a use of a resource that the host couldn't bind or the device may not support.

use crate::access::pointee;
use crate::typed::Typed;
use crate::wording::Wording;
use report_names::{MOST_NESTED, type_text};
use report_places::BodyPlace;
use shader_arena::Handle;
use shader_ir::{Expression, Function, Module, TypeInner, mark};
use std::alloc::{AllocError, Global};

/// Returns the base and the index of an access by a value.
fn access_of(typed: &Typed<'_>) -> Option<(Handle<mark::Expression>, Handle<mark::Expression>)> {
    match typed.expression()? {
        Expression::Access { base, index } => Some((*base, *index)),
        _ => None,
    }
}

/// Checks whether an operand is the result of a call.
fn is_call(typed: &Typed<'_>, operand: Handle<mark::Expression>) -> bool {
    match typed.function {
        Some(function) => match function.expressions.try_get(operand) {
            Some(Expression::CallResult(_)) => true,
            _ => false,
        },
        None => false,
    }
}

/// Returns what is said of an array of resources whose index may differ between invocations, if the expression is an access to one.
fn indexed_wording(alloc: Global, typed: &Typed<'_>) -> Result<Option<Wording>, AllocError> {
    let Some((base, index)) = access_of(typed) else {
        return Ok(None);
    };
    let name = typed.operand_text(alloc, base)?;
    let chosen = typed.operand_text(alloc, index)?;
    let message = format!(in alloc;
        "`{name}` is indexed by `{chosen}`, which may differ between invocations"
    )?;
    let label = if is_call(typed, index) {
        "this call may return different values"
    } else {
        "may differ between invocations"
    };
    let mut wording = Wording::of(alloc, message).labelled(Some(index), label.to_string(alloc)?);
    if let Some(text) = typed.type_text(alloc, base)? {
        wording.note(format!(in alloc; "`{name}` is a `{text}`")?)?;
    }
    Ok(Some(wording))
}

/// Checks whether an operand is a global variable, an element of one, or an argument.
fn is_resource(function: &Function, operand: Handle<mark::Expression>) -> bool {
    match function.expressions.try_get(operand) {
        Some(Expression::GlobalVariable(_)) | Some(Expression::FunctionArgument(_)) => true,
        Some(Expression::Access { base, .. }) | Some(Expression::AccessIndex { base, .. }) => {
            match function.expressions.try_get(*base) {
                Some(Expression::GlobalVariable(_)) | Some(Expression::FunctionArgument(_)) => true,
                _ => false,
            }
        }
        _ => false,
    }
}

/// Returns the operand of an expression that is no resource, and the word for what it is used as.
fn no_resource_in(
    function: &Function,
    expression: &Expression,
) -> Option<(Handle<mark::Expression>, &'static str)> {
    match expression {
        Expression::ImageSample { image, sampler, .. } => {
            if is_resource(function, *image) {
                Some((*sampler, "sampler"))
            } else {
                Some((*image, "texture"))
            }
        }
        Expression::ImageLoad { image, .. } | Expression::ImageQuery { image, .. } => {
            Some((*image, "texture"))
        }
        _ => None,
    }
}

/// Returns what is said of a texture or a sampler that no host binds, if the expression uses one.
fn unbound_wording(alloc: Global, typed: &Typed<'_>) -> Result<Option<Wording>, AllocError> {
    let (Some(function), Some(expression)) = (typed.function, typed.expression()) else {
        return Ok(None);
    };
    let Some((operand, word)) = no_resource_in(function, expression) else {
        return Ok(None);
    };
    let name = typed.operand_text(alloc, operand)?;
    let message = format!(in alloc; "`{name}` can't be used as a {word} here")?;
    let label = "neither a global variable, nor an element of one, nor an argument";
    let mut wording = Wording::of(alloc, message).labelled(Some(operand), label.to_string(alloc)?);
    let note =
        "a host binds textures and samplers, so they can't be chosen or stored while the shader runs";
    wording.note(note.to_string(alloc)?)?;
    wording.help(format!(in alloc; "name a global {word} or an argument here")?)?;
    Ok(Some(wording))
}

/// Returns the type of the elements of a binding array, or of a pointer to one.
fn element_of(typed: &Typed<'_>, base: Handle<mark::Expression>) -> Option<Handle<mark::Type>> {
    match pointee(typed.module, typed.inner(base)?) {
        TypeInner::BindingArray { base, .. } => Some(*base),
        _ => None,
    }
}

/// Returns what is said of a binding array of what is no resource, if the expression is an access to one.
fn element_wording(alloc: Global, typed: &Typed<'_>) -> Result<Option<Wording>, AllocError> {
    let Some((base, index)) = access_of(typed) else {
        return Ok(None);
    };
    let name = typed.operand_text(alloc, base)?;
    let chosen = typed.operand_text(alloc, index)?;
    let message = format!(in alloc;
        "`{name}` can't be indexed by `{chosen}`: its elements are neither textures nor samplers"
    )?;
    let label = match element_of(typed, base) {
        Some(ty) => {
            let text = type_text(alloc, typed.module, ty, MOST_NESTED)?;
            format!(in alloc; "the elements are `{text}`")?
        }
        None => "the elements are neither textures nor samplers".to_string(alloc)?,
    };
    let mut wording = Wording::of(alloc, message).labelled(Some(base), label);
    wording.help("index it by a literal".to_string(alloc)?)?;
    Ok(Some(wording))
}

/// What is wrong with a use of a resource.
#[derive(Clone, Copy)]
pub enum Misuse {
    /// The index of an array of resources may differ between invocations.
    DifferingIndex,
    /// A texture or a sampler is none that a host binds.
    Unbound,
    /// A binding array of what is no resource is indexed by a value.
    Element,
}

/// Returns what is said of a use of a resource. If the resource isn't found there, that is a general sentence.
///
/// # Errors
///
/// `AllocError` if an allocation fails.
pub fn resource_wording(
    alloc: Global,
    module: &Module,
    place: &BodyPlace,
    handle: Handle<mark::Expression>,
    misuse: Misuse,
    general: &str,
) -> Result<Wording, AllocError> {
    let typed = Typed::of(alloc, module, place, handle)?;
    let found = match misuse {
        Misuse::DifferingIndex => indexed_wording(alloc, &typed)?,
        Misuse::Unbound => unbound_wording(alloc, &typed)?,
        Misuse::Element => element_wording(alloc, &typed)?,
    };
    match found {
        Some(wording) => Ok(wording),
        None => Ok(Wording::of(alloc, general.to_string(alloc)?)),
    }
}
