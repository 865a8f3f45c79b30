//! Tests of conclusions in a module.
use crate::tests::{OUT_OF_MEMORY, SCALAR, VEC2, inner};
use shader_arena::Handle;
use shader_ir::proc::TypeResolution;
use shader_ir::{
    Items, Map, MathFunction, PredeclaredType, Scalar, SpecialTypes, StructMember, TypeInner,
    VectorSize,
};
use shader_overloads::Conclusion;
use std::alloc::Global;
use std::process::Abort;

const MODF: PredeclaredType = PredeclaredType::ModfResult {
    size: Some(VectorSize::Bi),
    scalar: Scalar::F32,
};

fn modf() -> Conclusion {
    Conclusion::for_frexp_modf(MathFunction::Modf, VEC2, Scalar::F32)
}

fn nothing_registered(alloc: Global) -> SpecialTypes {
    SpecialTypes {
        ray_intersection: None,
        ray_vertex_return: None,
        predeclared_types: Map::new(alloc),
    }
}

/// Returns a struct of 16 bytes with one member, of type 3, 8 bytes from the start. Copying it allocates; no built-in function concludes
/// one.
fn structure(rt: &impl Abort, alloc: Global) -> TypeInner {
    let member = StructMember {
        name: None,
        ty: Handle::from_index(3),
        binding: None,
        offset: 8,
    };
    TypeInner::Struct {
        members: Items::from(vec![in alloc; member].expect(rt, OUT_OF_MEMORY)),
        span: 16,
    }
}

/// Returns whether the conclusion is the type.
fn is_value(conclusion: &Conclusion, wanted: &TypeInner) -> bool {
    match conclusion {
        Conclusion::Value(found) => *found == *wanted,
        Conclusion::Predeclared(_) => false,
    }
}

#[test]
fn a_copy_of_a_struct_is_equal(rt: HostRuntime) {
    let conclusion = Conclusion::Value(structure(&rt, rt.alloc()));
    let copy = conclusion.copy(rt.alloc()).expect(&rt, OUT_OF_MEMORY);
    let wanted = structure(&rt, rt.alloc());
    assert!(rt; is_value(&copy, &wanted) && is_value(&conclusion, &wanted));
    drop(wanted);
    drop(copy);
    drop(conclusion);
}

#[test]
fn a_copy_of_a_predeclared_type_is_equal(rt: HostRuntime) {
    let copy = modf().copy(rt.alloc()).expect(&rt, OUT_OF_MEMORY);
    assert!(rt; matches!(&copy, Conclusion::Predeclared(found) if *found == MODF));
    drop(copy);
}

#[test]
fn a_plain_conclusion_is_free_standing(rt: HostRuntime) {
    let plain = Conclusion::Value(inner((SCALAR, Scalar::I32)));
    let found = plain.into_resolution(&nothing_registered(rt.alloc())).ok();
    assert!(rt; found == Some(TypeResolution::Value(inner((SCALAR, Scalar::I32)))));
}

#[test]
fn a_predeclared_conclusion_is_registered(rt: HostRuntime) {
    let mut special = nothing_registered(rt.alloc());
    let error = modf()
        .into_resolution(&special)
        .err()
        .expect(&rt, "a type that is missing");
    let text = format!(in rt.alloc(); "{error}").expect(&rt, OUT_OF_MEMORY);
    assert!(rt; text.as_str() == "Special type is not registered within the module");
    let added = special
        .predeclared_types
        .insert(MODF, Handle::from_index(4));
    added.expect(&rt, OUT_OF_MEMORY);
    let found = modf().into_resolution(&special).ok();
    assert!(rt; found == Some(TypeResolution::Handle(Handle::from_index(4))));
}
