//! Tests of a load through a pointer and through the value pointer that is the same type.
ghost use Rattle.std.specs.Prelude.{All, IsTrue};
ghost use Rattle.shader_ir.specs.Key.{FitsTypes};

use crate::congruence::loads_have_equal_keys;
use shader_arena::{Arena, Handle, UniqueArena};
use shader_ir::proc::{TypeResolution, compare_types, types_backward};
use shader_ir::{AddressSpace, Module, Scalar, Type, TypeInner, VectorSize, mark};
use shader_resolve::laws::contexts_of_well_formed_modules_fit;
use shader_resolve::{ResolveContext, check_module};
use std::alloc::Global;
use std::process::Abort;

/// Returns whether each stored type is in range, or is built of types that are.
fn all_fit(types: &UniqueArena<Type, mark::Type>, stored: &[TypeResolution]) -> bool
    ensures { IsTrue result → All (FitsTypes types.now) stored.now }
{
    stored.iter().all(|it| it.fits(types))
}

/// Returns whether a load has the same result for both lists, in the module.
fn have_equal_keys(
    rt: &impl Abort,
    alloc: Global,
    module: &Module,
    stored: [TypeResolution; 1],
    others: [TypeResolution; 1],
) -> bool {
    assert!(rt; check_module(module).is_ok());
    contexts_of_well_formed_modules_fit();
    let locals = Arena::new(alloc);
    let context = ResolveContext::with_locals(module, &locals, &[]);
    assert!(rt; all_fit(&module.types, &stored) && all_fit(&module.types, &others));
    let have_equal_keys = loads_have_equal_keys(
        &context,
        alloc,
        &stored,
        &others,
        Handle::from_index(0),
    );
    drop(stored);
    drop(others);
    drop(locals);
    have_equal_keys
}

/// Returns whether two types, each alone in its list, are the same.
fn are_same(
    rt: &impl Abort,
    module: &Module,
    stored: [TypeResolution; 1],
    others: [TypeResolution; 1],
) -> bool {
    let types = &module.types;
    assert!(rt; types_backward(types));
    let [first] = stored;
    let [second] = others;
    assert!(rt; first.fits(types) && second.fits(types));
    let are_same = compare_types(&first, &second, types);
    drop(first);
    drop(second);
    are_same
}

/// Returns a pointer to the module's vec2 of f32, or the value pointer that is equal to it.
fn to_pair(is_value: bool) -> [TypeResolution; 1] {
    let space = AddressSpace::Private;
    if is_value {
        return [TypeResolution::Value(TypeInner::ValuePointer {
            size: Some(VectorSize::Bi),
            scalar: Scalar::F32,
            space,
        })];
    }
    [TypeResolution::Value(TypeInner::Pointer {
        base: Handle::from_index(0),
        space,
    })]
}

/// Returns a module of one type, a vec2 of f32.
fn with_pair(rt: &impl Abort, alloc: Global) -> Module {
    let mut module = Module::new(alloc);
    let inner = TypeInner::Vector {
        size: VectorSize::Bi,
        scalar: Scalar::F32,
    };
    assert!(rt; module.types.len() < 10);
    module
        .types
        .insert(Type { name: None, inner })
        .expect(rt, "out of memory");
    module
}

#[test]
fn loads_through_equal_pointers_have_equal_keys(rt: HostRuntime) {
    let module = with_pair(&rt, rt.alloc());
    assert!(rt; are_same(&rt, &module, to_pair(false), to_pair(true)));
    assert!(rt; have_equal_keys(&rt, rt.alloc(), &module, to_pair(false), to_pair(true)));
    drop(module);
}
