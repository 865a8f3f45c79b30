//! Checks of a module's items other than functions and expressions.
ghost use Rattle.std.specs.Prelude.{◌≡◌, length, nat_lt};
ghost use Rattle.std.specs.List.{list_all};
ghost use Rattle.shader_ir.specs.TypeTree.{type_handles};
ghost use Rattle.shader_resolve.specs.ModuleTests.{all_below, check_data, check_filter, check_type, constant_in_range, every};
ghost use Rattle.shader_resolve.specs.ModuleTests.{global_in_range, in_arena, override_in_range, special_in_range, variables_in_range};
ghost use Rattle.shader_resolve.specs.WellFormed.{pending_size, sizing_override};

use super::ModuleFault;
use super::expressions::{is_below, is_optional_below};
use shader_arena::Handle;
use shader_ir::{
    ArraySize, DiagnosticFilterNode, Module, SpecialTypes, StructMember, TypeInner, mark,
};

/// Returns the first violation outside of functions and expressions.
pub fn check_data(module: &Module) -> Result<(), ModuleFault>
    ensures { result ≡ check_data «module».now }
{
    if !variables_in_range(module) {
        return Err(ModuleFault::HandleOutOfRange);
    }
    check_types(module)?;
    check_filters(module)
}

fn check_types(module: &Module) -> Result<(), ModuleFault>
    ensures { result ≡ in_arena (λ position type. check_type «module».now position type.inner) «module».now.types }
{
    for (handle, ty) in module.types.iter() {
        check_type(module, handle.index(), &ty.inner)?;
    }
    Ok(())
}

pub fn check_type(module: &Module, position: usize, inner: &TypeInner) -> Result<(), ModuleFault>
    ensures { result ≡ check_type «module».now position inner.now }
{
    if !bases_below(inner, module.types.len())
        || !is_optional_below(sizing_override(inner), module.overrides.len())
    {
        return Err(ModuleFault::HandleOutOfRange);
    }
    if !bases_below(inner, position) {
        return Err(ModuleFault::TypeNotEarlier);
    }
    Ok(())
}

/// Returns whether the types that a type names are below a bound.
#[tactic(auto, using(crate::proofs::MappedTests::mapped))]
fn bases_below(inner: &TypeInner, bound: usize) -> bool
    ensures { result ≡ all_below bound (type_handles inner.now) }
{
    match inner {
        TypeInner::Pointer { base, .. }
        | TypeInner::Array { base, .. }
        | TypeInner::BindingArray { base, .. } => is_below(*base, bound),
        TypeInner::Struct { members, .. } => members_below(members.as_slice(), bound),
        _ => true,
    }
}

fn members_below(members: &[StructMember], bound: usize) -> bool
    ensures { result ≡ list_all (λ member. nat_lt member.ty bound) members.now }
{
    members.iter().all(|member| is_below(member.ty, bound))
}

/// Returns the override that sizes a type.
fn sizing_override(inner: &TypeInner) -> Option<Handle<mark::Override>>
    ensures { result ≡ sizing_override inner.now }
{
    match inner {
        TypeInner::Array { size, .. } | TypeInner::BindingArray { size, .. } => pending_size(*size),
        _ => None,
    }
}

fn pending_size(size: ArraySize) -> Option<Handle<mark::Override>>
    ensures { result ≡ pending_size size }
{
    match size {
        ArraySize::Pending(handle) => Some(handle),
        ArraySize::Constant(_) | ArraySize::Dynamic => None,
    }
}

/// Returns whether the handles of the special types, constants, overrides and variables are in
/// range.
fn variables_in_range(module: &Module) -> bool
    ensures { result ≡ variables_in_range «module».now }
{
    special_in_range(module, &module.special_types)
        && constants_in_range(module)
        && overrides_in_range(module)
        && globals_in_range(module)
}

pub fn special_in_range(module: &Module, special: &SpecialTypes) -> bool
    ensures { result ≡ special_in_range «module».now special.now }
{
    is_optional_below(special.ray_intersection, module.types.len())
        && is_optional_below(special.ray_vertex_return, module.types.len())
        && predeclared_in_range(module, special)
}

fn predeclared_in_range(module: &Module, special: &SpecialTypes) -> bool
    ensures { result ≡ list_all (λ entry. nat_lt entry.1 (length «module».now.types)) special.now.predeclared_types }
{
    for (_, ty) in special.predeclared_types.iter() {
        if !is_below(*ty, module.types.len()) {
            return false;
        }
    }
    true
}

fn constants_in_range(module: &Module) -> bool
    ensures { result ≡ every (λ position constant. constant_in_range «module».now constant) «module».now.constants }
{
    for (_, constant) in module.constants.iter() {
        if !is_below(constant.ty, module.types.len())
            || !is_below(constant.init, module.global_expressions.len())
        {
            return false;
        }
    }
    true
}

fn overrides_in_range(module: &Module) -> bool
    ensures { result ≡ every (λ position override. override_in_range «module».now override) «module».now.overrides }
{
    for (_, value) in module.overrides.iter() {
        if !is_below(value.ty, module.types.len())
            || !is_optional_below(value.init, module.global_expressions.len())
        {
            return false;
        }
    }
    true
}

fn globals_in_range(module: &Module) -> bool
    ensures { result ≡ every (λ position variable. global_in_range «module».now variable) «module».now.global_variables }
{
    for (_, variable) in module.global_variables.iter() {
        if !is_below(variable.ty, module.types.len())
            || !is_optional_below(variable.init, module.global_expressions.len())
        {
            return false;
        }
    }
    true
}

fn check_filters(module: &Module) -> Result<(), ModuleFault>
    ensures { result ≡ in_arena (check_filter «module».now) «module».now.diagnostic_filters }
{
    for (handle, node) in module.diagnostic_filters.iter() {
        check_filter(module, handle.index(), node)?;
    }
    Ok(())
}

pub fn check_filter(
    module: &Module,
    position: usize,
    node: &DiagnosticFilterNode,
) -> Result<(), ModuleFault>
    ensures { result ≡ check_filter «module».now position node.now }
{
    if !is_optional_below(node.parent, module.diagnostic_filters.len()) {
        return Err(ModuleFault::HandleOutOfRange);
    }
    if !is_optional_below(node.parent, position) {
        return Err(ModuleFault::FilterNotEarlier);
    }
    Ok(())
}
