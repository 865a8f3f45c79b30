//! Tests of names, lists, maps, counts and flags.
use crate::tests::OUT_OF_MEMORY;
use bitflags::Flags;
use shader_arena::Handle;
use shader_ir::{
    Barrier, Count, Items, Map, Name, PredeclaredType, Scalar, ShaderStages, StorageAccess, mark,
};
use std::process::Abort;

#[test]
fn a_name_gives_back_its_text(rt: HostRuntime) {
    let text = "Pair".to_string(rt.alloc()).expect(&rt, OUT_OF_MEMORY);
    let name = Name::from(text);
    assert!(rt; name.as_str() == "Pair");
    assert!(rt; name.into_string().as_str() == "Pair");
}

#[test]
fn items_give_back_what_they_were_made_of(rt: HostRuntime) {
    let items = [1u8, 2].to_vec(rt.alloc()).expect(&rt, OUT_OF_MEMORY);
    let items = Items::from(items);
    assert!(rt; items.len() == 2 && !items.is_empty());
    assert!(rt; items.as_slice() == [1, 2].as_slice());
    assert!(rt; items.into_vec().as_slice() == [1, 2].as_slice());
}

#[test]
fn items_are_walked_and_indexed(rt: HostRuntime) {
    let items = [1u8, 2].to_vec(rt.alloc()).expect(&rt, OUT_OF_MEMORY);
    let items = Items::from(items);
    assert!(rt; items.len() == 2);
    assert!(rt; items[0] == 1 && items[1] == 2);
    let mut walk = items.iter();
    assert!(rt; walk.next() == Some(&1) && walk.next() == Some(&2));
    assert!(rt; walk.next().is_none());
    assert!(rt; (&items).into_iter().next() == Some(&1));
    assert!(rt; Items::<u8>::new(rt.alloc()).is_empty());
}

fn modf(scalar: Scalar) -> PredeclaredType {
    PredeclaredType::ModfResult { size: None, scalar }
}

type Predeclared = Map<PredeclaredType, Handle<mark::Type>>;

fn set(rt: &impl Abort, map: &mut Predeclared, position: u32) -> Option<Handle<mark::Type>> {
    let set = map.insert(modf(Scalar::F32), Handle::from_index(position));
    set.expect(rt, OUT_OF_MEMORY)
}

#[test]
fn a_map_keeps_the_last_value_of_a_key(rt: HostRuntime) {
    let mut map: Predeclared = Map::new(rt.alloc());
    assert!(rt; map.is_empty());
    assert!(rt; set(&rt, &mut map, 4).is_none());
    assert!(rt; set(&rt, &mut map, 5) == Some(Handle::from_index(4)));
    assert!(rt; map.len() == 1);
    assert!(rt; map.get(&modf(Scalar::F16)).is_none());
    assert!(rt; map.get(&modf(Scalar::F32)) == Some(&Handle::from_index(5)));
}

fn is_entry(entry: Option<(&PredeclaredType, &Handle<mark::Type>)>, position: usize) -> bool {
    match entry {
        Some((key, value)) => *key == modf(Scalar::F32) && value.index() == position,
        None => false,
    }
}

#[test]
fn a_map_gives_back_its_entries(rt: HostRuntime) {
    let mut map: Predeclared = Map::new(rt.alloc());
    assert!(rt; set(&rt, &mut map, 5).is_none());
    let map = Map::from(map.into_index_map());
    let mut entries = map.iter();
    assert!(rt; is_entry(entries.next(), 5));
    assert!(rt; entries.next().is_none());
}

#[test]
fn a_count_is_not_0(rt: HostRuntime) {
    assert!(rt; Count::new(0).is_none());
    let most = Count::new(u32::MAX).expect(&rt, "a count");
    assert!(rt; most.get() == u32::MAX);
}

#[test]
fn accesses_have_their_bits(rt: HostRuntime) {
    let both = StorageAccess::LOAD | StorageAccess::STORE;
    assert!(rt; both.contains(StorageAccess::STORE));
    assert!(rt; !both.contains(StorageAccess::ATOMIC));
    assert!(rt; (both & StorageAccess::STORE).bits() == 2);
    assert!(rt; StorageAccess::from_name("ATOMIC") == Some(StorageAccess(4)));
}

#[test]
fn barriers_and_stages_have_their_bits(rt: HostRuntime) {
    let barrier = Barrier::WORK_GROUP | Barrier::SUB_GROUP | Barrier::TEXTURE;
    assert!(rt; barrier.bits() == 14);
    assert!(rt; (barrier & Barrier::TEXTURE).bits() == 8);
    assert!(rt; ShaderStages::all().bits() == 31);
    let stages = ShaderStages::FRAGMENT | ShaderStages::TASK;
    assert!(rt; stages.bits() == 18);
    assert!(rt; (stages & ShaderStages::VERTEX).bits() == 0);
}
