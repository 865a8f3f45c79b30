//! Tests of allocation failure: if a growth fails, the value passed comes back, nothing else changes, and the same call succeeds when it is
//! repeated.
//!
//! With enough memory nothing fails. Under fault injection, where the allocator refuses the Nth request of a test's process, the test still
//! passes and prints a line with `was refused`. The first N at which no test prints one is beyond all requests.
use crate::tests::OUT_OF_MEMORY;
use shader_arena::{Arena, Handle, UniqueArena};
use shader_ir::proc::{Layouter, UpdateError, sizes_in_range};
use shader_ir::{
    ArraySize, Count, GlobalCtx, Items, Map, Name, Scalar, StructMember, Type, TypeInner, mark,
};
use std::alloc::{AllocError, AllocFailed, Global};
use std::io::Print;
use std::process::Abort;

type Types = UniqueArena<Type, mark::Type>;

fn print<R: Abort + Print>(rt: &R, what: &str) {
    println!(rt; "{what} was refused").expect(rt, "standard output");
}

fn insert_again_if_refused<R: Abort + Print>(
    rt: &R,
    types: &mut Types,
    ty: Type,
) -> Handle<mark::Type> {
    assert!(rt; types.len() < 100);
    let len = types.len();
    match types.insert(ty) {
        Ok(handle) => handle,
        Err(AllocFailed { value }) => {
            print(rt, "insert of a type");
            assert!(rt; types.len() == len);
            types.insert(value).expect(rt, OUT_OF_MEMORY)
        }
    }
}

fn add<R: Abort + Print>(rt: &R, types: &mut Types, inner: TypeInner) {
    let len = types.len();
    let handle = insert_again_if_refused(rt, types, Type { name: None, inner });
    assert!(rt; handle.index() == len && types.contains_handle(handle));
}

/// The number of types that the first call lays out; the second one adds three more layouts before their buffer is full.
const BEFORE: u32 = 5;

/// The number of types at the end.
const POSITIONS: u32 = 12;

/// Returns an array of one item of the first type.
fn strided(rt: &impl Abort, stride: u32) -> TypeInner {
    TypeInner::Array {
        base: Handle::from_index(0),
        size: ArraySize::Constant(Count::new(1).expect(rt, "a count")),
        stride,
    }
}

/// Adds arrays of one item whose stride is their position, after a scalar.
fn add_strided<R: Abort + Print>(rt: &R, types: &mut Types, first: u32, past: u32) {
    for stride in first..past {
        add(rt, types, strided(rt, stride));
    }
}

/// Asserts that the layouts stored are those of a scalar and of arrays of one item whose stride is their position.
fn check_stored(rt: &impl Abort, layouter: &Layouter) {
    for position in 0..POSITIONS {
        if (position as usize) < layouter.len() {
            let size = if position == 0 { 4 } else { position };
            assert!(rt; layouter[Handle::from_index(position)].size == size);
        }
    }
}

/// Returns whether the layouts fill their buffer. Only then does a call fail, and it keeps the layouts computed before.
fn fill_their_room(layouter: &Layouter) -> bool {
    matches!(layouter.len(), 0 | 4 | 8)
}

fn update_again_if_refused<R: Abort + Print>(rt: &R, layouter: &mut Layouter, ctx: GlobalCtx<'_>) {
    assert!(rt; sizes_in_range(ctx));
    let stored = layouter.len();
    if layouter.update(ctx) == Err(UpdateError::OutOfMemory) {
        print(rt, "update");
        assert!(rt; stored <= layouter.len() && layouter.len() < ctx.types.len());
        assert!(rt; fill_their_room(layouter));
        check_stored(rt, layouter);
        assert!(rt; layouter.update(ctx) == Ok(()));
    }
    assert!(rt; layouter.len() == ctx.types.len());
    check_stored(rt, layouter);
}

/// Updates the layouts in a module that has only types.
fn update<R: Abort + Print>(rt: &R, alloc: Global, layouter: &mut Layouter, types: &Types) {
    let constants = Arena::new(alloc);
    let overrides = Arena::new(alloc);
    let global_expressions = Arena::new(alloc);
    let ctx = GlobalCtx {
        types,
        constants: &constants,
        overrides: &overrides,
        global_expressions: &global_expressions,
    };
    update_again_if_refused(rt, layouter, ctx);
}

#[test]
fn of_update(rt: HostRuntime) {
    let mut types: Types = UniqueArena::new(rt.alloc());
    add(&rt, &mut types, TypeInner::Scalar(Scalar::F32));
    add_strided(&rt, &mut types, 1, BEFORE);
    let mut layouter = Layouter::new(rt.alloc());
    update(&rt, rt.alloc(), &mut layouter, &types);
    add_strided(&rt, &mut types, BEFORE, POSITIONS);
    update(&rt, rt.alloc(), &mut layouter, &types);
    assert!(rt; layouter.len() == POSITIONS as usize);
}

fn set_again_if_refused<R: Abort + Print>(rt: &R, map: &mut Map<u32, u32>, number: u32) {
    let len = map.len();
    if let Err(AllocFailed { value }) = map.insert(number, number / 2) {
        print(rt, "insert in a map");
        assert!(rt; value == (number, number / 2) && map.len() == len);
        let old = map.insert(number, number / 2).expect(rt, OUT_OF_MEMORY);
        assert!(rt; old.is_none());
    }
}

#[test]
fn of_insert_in_a_map(rt: HostRuntime) {
    let mut map: Map<u32, u32> = Map::new(rt.alloc());
    for number in 0..20 {
        set_again_if_refused(&rt, &mut map, number);
    }
    assert!(rt; map.len() == 20);
    for (key, value) in map.iter() {
        assert!(rt; *value == *key / 2);
    }
}

fn name<R: Abort + Print>(rt: &R, alloc: Global, text: &str) -> Name {
    let text = match text.to_string(alloc) {
        Ok(text) => text,
        Err(AllocError) => {
            print(rt, "a text");
            text.to_string(alloc).expect(rt, OUT_OF_MEMORY)
        }
    };
    Name::from(text)
}

fn named_member<R: Abort + Print>(rt: &R, alloc: Global) -> StructMember {
    StructMember {
        name: Some(name(rt, alloc, "x")),
        ty: Handle::from_index(3),
        binding: None,
        offset: 4,
    }
}

/// Returns a list of one member.
fn named_members<R: Abort + Print>(rt: &R, alloc: Global) -> Items<StructMember> {
    let mut members = Vec::new(alloc);
    if let Err(AllocFailed { value }) = members.push(named_member(rt, alloc)) {
        print(rt, "a list of members");
        members.push(value).expect(rt, OUT_OF_MEMORY);
    }
    Items::from(members)
}

/// Returns a struct of one member.
fn named_struct<R: Abort + Print>(rt: &R, alloc: Global) -> Type {
    Type {
        name: Some(name(rt, alloc, "S")),
        inner: TypeInner::Struct {
            members: named_members(rt, alloc),
            span: 8,
        },
    }
}

#[test]
fn of_a_copy_of_a_type(rt: HostRuntime) {
    let ty = named_struct(&rt, rt.alloc());
    let copy = match ty.copy(rt.alloc()) {
        Ok(copy) => copy,
        Err(AllocError) => {
            print(&rt, "a copy of a type");
            ty.copy(rt.alloc()).expect(&rt, OUT_OF_MEMORY)
        }
    };
    assert!(rt; copy == ty);
}

#[test]
fn of_insert_of_a_struct(rt: HostRuntime) {
    let mut types: Types = UniqueArena::new(rt.alloc());
    let ty = named_struct(&rt, rt.alloc());
    let first = insert_again_if_refused(&rt, &mut types, ty);
    let ty = named_struct(&rt, rt.alloc());
    assert!(rt; types.len() == 1);
    // An equal type allocates nothing, so this never fails.
    let again = types.insert(ty).expect(&rt, OUT_OF_MEMORY);
    assert!(rt; again == first && types.len() == 1);
}
