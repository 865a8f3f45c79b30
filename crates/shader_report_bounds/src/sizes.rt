//! The override that keeps lengths from being known.
ghost use Rattle.std.specs.Prelude.{◌≡◌, ◌↔◌, IsNone};
ghost use Rattle.shader_bounds.specs.Lengths.{AreSizesKnown};
ghost use Rattle.shader_report_bounds.specs.Sizes.{first_unsized, pending_override, unresolved};

use shader_arena::Handle;
use shader_bounds::IndexableLengths;
use shader_ir::{ArraySize, Module, TypeInner, mark};

/// Returns the override that sizes an array or a binding array.
fn pending_override(inner: &TypeInner) -> Option<Handle<mark::Override>>
    ensures { result ≡ pending_override inner.now }
{
    match inner {
        TypeInner::Array { size, .. } | TypeInner::BindingArray { size, .. } => match *size {
            ArraySize::Pending(handle) => Some(handle),
            ArraySize::Constant(_) | ArraySize::Dynamic => None,
        },
        _ => None,
    }
}

/// Returns the override that sizes a type, if its value is no valid size.
fn unresolved(module: &Module, inner: &TypeInner) -> Option<Handle<mark::Override>>
    ensures { result ≡ unresolved «module».now inner.now }
{
    match inner.indexable_length_resolved(module) {
        Ok(_) => None,
        Err(_) => pending_override(inner),
    }
}

/// Returns the override of the first type whose size is an override without a valid value.
fn find_unsized(module: &Module) -> Option<Handle<mark::Override>>
    ensures { result ≡ first_unsized «module».now }
{
    for (_, ty) in module.types.iter() {
        if let Some(handle) = unresolved(module, &ty.inner) {
            return Some(handle);
        }
    }
    None
}

/// Returns the override that has to be given a value before lengths are known: that of the first type of the module whose size is an
/// override without a valid value. There is none exactly if `sizes_known` returns true.
#[tactic(auto, using(crate::proofs::SizeLemmas::none_where))]
pub fn first_unsized(module: &Module) -> Option<Handle<mark::Override>>
    ensures first { result ≡ first_unsized «module».now }
    ensures none { IsNone result ↔ AreSizesKnown «module».now }
{
    find_unsized(module)
}
