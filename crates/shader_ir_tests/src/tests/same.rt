//! Tests of equality of values that the arenas of rows don't contain on their own.
use shader_arena::Handle;
use shader_ir::{ArraySize, PredeclaredType, Same, Scalar, StructMember, VectorSize, mark};

/// Returns a member without a name.
fn member(ty: Handle<mark::Type>, offset: u32) -> StructMember {
    StructMember {
        name: None,
        ty,
        binding: None,
        offset,
    }
}

#[test]
fn sameness_is_of_all_fields(rt: HostRuntime) {
    assert!(rt; Scalar::F32.is_same(&Scalar::F32));
    assert!(rt; !Scalar::F32.is_same(&Scalar::F64));
    let ty = Handle::from_index(1);
    assert!(rt; member(ty, 4).is_same(&member(ty, 4)));
    assert!(rt; !member(ty, 4).is_same(&member(ty, 8)));
}

#[test]
fn sameness_is_of_variants(rt: HostRuntime) {
    assert!(rt; !VectorSize::Bi.is_same(&VectorSize::Tri));
    assert!(rt; ArraySize::Dynamic.is_same(&ArraySize::Dynamic));
    let scalar = Scalar::F32;
    let frexp = PredeclaredType::FrexpResult { size: None, scalar };
    let modf = PredeclaredType::ModfResult { size: None, scalar };
    assert!(rt; !frexp.is_same(&modf));
}
