//! Tests of types made of scalars, and of the lists of scalars and of sizes.
use crate::tests::OUT_OF_MEMORY;
use shader_ir::proc::{concrete_int_scalars, vector_size_str, vector_sizes};
use shader_ir::{Scalar, TypeInner, VectorSize};

#[test]
fn types_are_made_of_scalars(rt: HostRuntime) {
    assert!(rt; Scalar::float(2) == Scalar::F16);
    assert!(rt; Scalar::I32.to_inner_atomic() == TypeInner::Atomic(Scalar::I32));
    assert!(rt; Scalar::I32.to_inner_scalar() == TypeInner::Scalar(Scalar::I32));
    let (size, scalar) = (VectorSize::Tri, Scalar::I32);
    assert!(rt; Scalar::I32.to_inner_vector(size) == TypeInner::Vector { size, scalar });
}

const BY_PREFERENCE: [Scalar; 6] = [
    Scalar::I32,
    Scalar::U32,
    Scalar::I16,
    Scalar::U16,
    Scalar::I64,
    Scalar::U64,
];

#[test]
fn concrete_integers_come_by_preference(rt: HostRuntime) {
    let mut ints = concrete_int_scalars();
    for wanted in BY_PREFERENCE {
        assert!(rt; ints.next() == Some(wanted));
    }
    assert!(rt; ints.next() == None);
}

#[test]
fn sizes_of_vectors_come_in_order_and_a_copy_goes_on_by_itself(rt: HostRuntime) {
    let mut sizes = vector_sizes();
    assert!(rt; sizes.next() == Some(VectorSize::Bi));
    let mut others = sizes.clone().expect(&rt, OUT_OF_MEMORY);
    assert!(rt; sizes.next() == Some(VectorSize::Tri));
    assert!(rt; sizes.next() == Some(VectorSize::Quad));
    assert!(rt; sizes.next() == None);
    assert!(rt; others.next() == Some(VectorSize::Tri));
}

#[test]
fn sizes_of_vectors_have_texts(rt: HostRuntime) {
    assert!(rt; vector_size_str(VectorSize::Bi) == "2");
    assert!(rt; vector_size_str(VectorSize::Tri) == "3");
    assert!(rt; vector_size_str(VectorSize::Quad) == "4");
}
