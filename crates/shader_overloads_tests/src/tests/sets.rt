//! Tests of flags, sets of scalars and of constructors, and their iterators.
use crate::tests::{MAT3X3, OUT_OF_MEMORY, SCALAR, VEC2, VEC3, inner};
use bitflags::Flags;
use shader_ir::{Scalar, TypeInner};
use shader_overloads::utils::{
    float_scalars, float_scalars_unimplemented_abstract, pairs, scalar_or_vecn, triples,
};
use shader_overloads::{ConstructorSet, OneBitsIter, ScalarSet};
use std::alloc::Global;
use std::process::Abort;

/// Returns the set bits, each as a number.
fn masks(rt: &impl Abort, alloc: Global, bits: u64) -> Vec<u64> {
    OneBitsIter::new(bits)
        .collect(alloc)
        .expect(rt, OUT_OF_MEMORY)
}

#[test]
fn bits_grow(rt: HostRuntime) {
    assert!(rt; masks(&rt, rt.alloc(), 1).as_slice() == [1].as_slice());
    assert!(rt; masks(&rt, rt.alloc(), 21).as_slice() == [1, 4, 16].as_slice());
    let wanted = [1, 64, 128, 512, 1024];
    assert!(rt; masks(&rt, rt.alloc(), 1729).as_slice() == wanted.as_slice());
    assert!(rt; masks(&rt, rt.alloc(), 1 << 63).as_slice() == [1 << 63].as_slice());
    assert!(rt; OneBitsIter::new(0).next().is_none());
    let all = masks(&rt, rt.alloc(), u64::MAX);
    assert!(rt; all.len() == 64 && all.is_sorted());
    assert!(rt; all.first() == Some(&1) && all.last() == Some(&(1 << 63)));
}

/// Sets of constructors, and their bits.
static CONSTRUCTORS: [(ConstructorSet, u16); 6] = [
    (ConstructorSet::EMPTY, 0),
    (ConstructorSet::SCALAR, 1),
    (ConstructorSet::VECN, 14),
    (ConstructorSet::SCALAR_OR_VECN, 15),
    (ConstructorSet::SQUARE_MATRICES, 4368),
    (ConstructorSet::MAT4X4, 4096),
];

#[test]
fn constructors_have_their_bits(rt: HostRuntime) {
    for (set, bits) in &CONSTRUCTORS {
        assert!(rt; set.bits() == *bits);
        assert!(rt; *set == ConstructorSet::from_bits_retain(*bits));
    }
    assert!(rt; ConstructorSet::empty() == ConstructorSet::EMPTY);
    let some = ConstructorSet::SCALAR_OR_VECN & (ConstructorSet::VEC3 | ConstructorSet::MAT3X3);
    assert!(rt; some == ConstructorSet::VEC3 && some.bits() == 4);
    let either = ConstructorSet::SCALAR | ConstructorSet::VECN;
    assert!(rt; either == ConstructorSet::SCALAR_OR_VECN && either != ConstructorSet::VECN);
    assert!(rt; (ConstructorSet::VECN & ConstructorSet::SQUARE_MATRICES).bits() == 0);
}

/// Sets of scalars, and their bits.
static SCALARS: [(ScalarSet, u16); 10] = [
    (ScalarSet::EMPTY, 0),
    (ScalarSet::FLOAT, 1794),
    (ScalarSet::INTEGER, 253),
    (ScalarSet::NUMERIC, 2047),
    (ScalarSet::ABSTRACT, 3),
    (ScalarSet::CONCRETE, 4092),
    (ScalarSet::CONCRETE_INTEGER, 252),
    (ScalarSet::CONCRETE_FLOAT, 1792),
    (ScalarSet::FLOAT_ABSTRACT_UNIMPLEMENTED, 1792),
    (ScalarSet::BOOL, 2048),
];

#[test]
fn scalars_have_their_bits(rt: HostRuntime) {
    for (set, bits) in &SCALARS {
        assert!(rt; set.bits() == *bits);
    }
    assert!(rt; ScalarSet::empty().bits() == 0 && ScalarSet::empty().is_empty());
    assert!(rt; ScalarSet::concrete().bits() == 4092);
    assert!(rt; (ScalarSet::NUMERIC & ScalarSet::concrete()).bits() == 2044);
    assert!(rt; (ScalarSet::I32 | ScalarSet::U32 | ScalarSet::BOOL).bits() == 2084);
    assert!(rt; (ScalarSet::FLOAT & ScalarSet::INTEGER).is_empty());
    let odd = Scalar::float(3);
    assert!(rt; ScalarSet::singleton(odd).is_empty());
    assert!(rt; ScalarSet::convertible_from(odd).is_empty());
    assert!(rt; ScalarSet::convertible_from(Scalar::BOOL).bits() == ScalarSet::BOOL.bits());
}

#[test]
fn constructors_tell_what_they_make(rt: HostRuntime) {
    let square = ConstructorSet::singleton(&inner((MAT3X3, Scalar::F32)));
    assert!(rt; square == ConstructorSet::MAT3X3 && square.is_singleton());
    assert!(rt; inner((square.size(), Scalar::F32)) == inner((MAT3X3, Scalar::F32)));
    let vectors = ConstructorSet::VECN;
    assert!(rt; !vectors.is_singleton() && !vectors.is_empty());
    assert!(rt; inner((vectors.first_size(), Scalar::F32)) == inner((VEC2, Scalar::F32)));
}

const CONCRETE_FLOATS: [Scalar; 3] = [Scalar::F32, Scalar::F16, Scalar::F64];

/// Returns the scalars of a set, in the order of its bits.
fn scalars(rt: &impl Abort, alloc: Global, set: ScalarSet) -> Vec<Scalar> {
    let mut found = Vec::new(alloc);
    for scalar in set.members() {
        assert!(rt; !scalar.is_empty());
        found
            .push(scalar.most_general_scalar())
            .expect(rt, OUT_OF_MEMORY);
    }
    found
}

#[test]
fn members_are_in_the_order_of_bits(rt: HostRuntime) {
    let found = scalars(&rt, rt.alloc(), ScalarSet::CONCRETE_FLOAT);
    assert!(rt; found.as_slice() == CONCRETE_FLOATS.as_slice());
    let squares = ConstructorSet::SQUARE_MATRICES.members();
    let found: Vec<ConstructorSet> = squares.collect(rt.alloc()).expect(&rt, OUT_OF_MEMORY);
    let wanted = [
        ConstructorSet::MAT2X2,
        ConstructorSet::MAT3X3,
        ConstructorSet::MAT4X4,
    ];
    assert!(rt; found.as_slice() == wanted.as_slice());
}

#[test]
fn scalars_come_in_the_order_of_preference(rt: HostRuntime) {
    let scalars = float_scalars();
    let copy = scalars.clone().expect(&rt, OUT_OF_MEMORY);
    let floats: Vec<Scalar> = copy.collect(rt.alloc()).expect(&rt, OUT_OF_MEMORY);
    assert!(rt; floats.first() == Some(&Scalar::ABSTRACT_FLOAT));
    assert!(rt; scalars.count() == 4);
    let scalars = float_scalars_unimplemented_abstract();
    let floats: Vec<Scalar> = scalars.collect(rt.alloc()).expect(&rt, OUT_OF_MEMORY);
    assert!(rt; floats.as_slice() == CONCRETE_FLOATS.as_slice());
}

#[test]
fn a_scalar_comes_before_its_vectors(rt: HostRuntime) {
    let mut built = scalar_or_vecn(Scalar::I32);
    for size in [SCALAR, VEC2, VEC3] {
        let found: Option<TypeInner> = built.next();
        assert!(rt; found == Some(inner((size, Scalar::I32))));
    }
}

#[test]
fn the_first_slice_is_outermost(rt: HostRuntime) {
    let found: Vec<(u8, char)> = pairs(&[1, 2], &['a', 'b'])
        .collect(rt.alloc())
        .expect(&rt, OUT_OF_MEMORY);
    let wanted = [(1, 'a'), (1, 'b'), (2, 'a'), (2, 'b')];
    assert!(rt; found.as_slice() == wanted.as_slice());
}

#[test]
fn the_first_of_three_slices_is_outermost(rt: HostRuntime) {
    let found: Vec<(u8, char, bool)> = triples(&[1, 2], &['a'], &[true, false])
        .collect(rt.alloc())
        .expect(&rt, OUT_OF_MEMORY);
    let wanted = [
        (1, 'a', true),
        (1, 'a', false),
        (2, 'a', true),
        (2, 'a', false),
    ];
    assert!(rt; found.as_slice() == wanted.as_slice());
}
