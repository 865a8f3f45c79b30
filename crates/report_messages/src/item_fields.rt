//! The fields of items in the JSON of a module, by the index that they have.

use crate::lists::{ListKind, Named};
use shader_ir::{Function, SpecialTypes, TypeInner};
use std::alloc::{AllocError, Global};

/// Returns the field of a constant or of a variable.
pub fn variable_field(named: Named) -> &'static str {
    match named.list {
        ListKind::Types => ".ty",
        _ => ".init",
    }
}

/// Returns the field of the special types.
pub fn special_field(special: &SpecialTypes, index: usize) -> &'static str {
    if let Some(ty) = special.ray_intersection {
        if ty.index() == index {
            return ".ray_intersection";
        }
    }
    if let Some(ty) = special.ray_vertex_return {
        if ty.index() == index {
            return ".ray_vertex_return";
        }
    }
    ".predeclared_types"
}

/// Returns the way from a type to the field that names an item, as `.inner.Pointer.base`.
pub fn type_field(alloc: Global, inner: &TypeInner, named: Named) -> Result<String, AllocError> {
    let is_type = matches!(named.list, ListKind::Types);
    match inner {
        TypeInner::Pointer { .. } => ".inner.Pointer.base".to_string(alloc),
        TypeInner::Array { .. } if is_type => ".inner.Array.base".to_string(alloc),
        TypeInner::Array { .. } => ".inner.Array.size.Pending".to_string(alloc),
        TypeInner::BindingArray { .. } if is_type => ".inner.BindingArray.base".to_string(alloc),
        TypeInner::BindingArray { .. } => ".inner.BindingArray.size.Pending".to_string(alloc),
        TypeInner::Struct { members, .. } => {
            for (position, member) in members.as_slice().iter().enumerate() {
                if member.ty.index() == named.index {
                    return format!(in alloc; ".inner.Struct.members[{position}].ty");
                }
            }
            Ok(String::new(alloc))
        }
        _ => Ok(String::new(alloc)),
    }
}

/// Returns the field of a function that names a type, outside of its local variables.
fn signature_field(
    alloc: Global,
    function: &Function,
    index: usize,
) -> Result<Option<String>, AllocError> {
    for (position, argument) in function.arguments.as_slice().iter().enumerate() {
        if argument.ty.index() == index {
            return Ok(Some(format!(in alloc; ".arguments[{position}].ty")?));
        }
    }
    match function.result {
        Some(result) if result.ty.index() == index => { Ok(Some(".result.ty".to_string(alloc)?)) }
        _ => Ok(None),
    }
}

/// Returns the way from a function to the field that names an item outside of expressions and statements, as `.arguments[0].ty`.
pub fn declaration_field(
    alloc: Global,
    function: &Function,
    named: Named,
) -> Result<String, AllocError> {
    let is_type = match named.list {
        ListKind::DiagnosticFilters => return ".diagnostic_filter_leaf".to_string(alloc),
        ListKind::Types => true,
        _ => false,
    };
    if is_type {
        if let Some(field) = signature_field(alloc, function, named.index)? {
            return Ok(field);
        }
    }
    for (handle, local) in function.local_variables.iter() {
        let position = handle.index();
        if is_type && local.ty.index() == named.index {
            return format!(in alloc; ".local_variables[{position}].ty");
        }
        if let Some(init) = local.init {
            if !is_type && init.index() == named.index {
                return format!(in alloc; ".local_variables[{position}].init");
            }
        }
    }
    ".named_expressions".to_string(alloc)
}
