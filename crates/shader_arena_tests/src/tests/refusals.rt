//! Tests of allocation failure: if a growth fails, the value passed comes back, the list is unchanged, and the same call succeeds when it
//! is repeated.
//!
//! With enough memory nothing fails. Under fault injection, where the allocator refuses the Nth request of a test's process, the test still
//! passes and prints a line with `was refused`. The first N at which no test prints one is beyond all requests.
ghost use Rattle.std.specs.Prelude.{◌≡◌, IfOk, length};

use crate::tests::Item;
use shader_arena::{AllocFailed, Arena, Handle, HandleSet, HandleVec, UniqueArena};
use std::alloc::Global;
use std::io::Print;
use std::process::Abort;
use std::test::Fail;

fn append_again_if_refused<R: Abort + Print>(
    rt: &R,
    arena: &mut Arena<u32, Item>,
    number: u32,
) -> Result<Handle<Item>, Fail> {
    assert!(rt; !arena.is_full());
    let len = arena.len();
    let refused = match arena.append(number) {
        Ok(handle) => return Ok(handle),
        Err(AllocFailed { value }) => value,
    };
    println!(rt; "append was refused at length {len}")?;
    assert!(rt; refused == number && arena.len() == len);
    Ok(arena.append(refused)?)
}

fn append_twenty<R: Abort + Print>(rt: &R, arena: &mut Arena<u32, Item>) -> Result<(), Fail> {
    for number in 0..20 {
        let handle = append_again_if_refused(rt, arena, number)?;
        assert!(rt; handle.index() == number as usize);
        assert!(rt; arena.len() == number as usize + 1);
    }
    Ok(())
}

#[test]
fn of_append(rt: HostRuntime) -> Result<(), Fail> {
    let mut arena: Arena<u32, Item> = Arena::new(rt.alloc());
    append_twenty(&rt, &mut arena)?;
    for (handle, item) in arena.iter() {
        assert!(rt; handle.index() == *item as usize);
    }
    Ok(())
}

fn insert_again_if_refused<R: Abort + Print>(
    rt: &R,
    arena: &mut UniqueArena<u32, Item>,
    number: u32,
) -> Result<Handle<Item>, Fail> {
    assert!(rt; !arena.is_full());
    let len = arena.len();
    let refused = match arena.insert(number) {
        Ok(handle) => return Ok(handle),
        Err(AllocFailed { value }) => value,
    };
    println!(rt; "insert in a unique arena was refused at length {len}")?;
    assert!(rt; refused == number && arena.len() == len);
    Ok(arena.insert(refused)?)
}

/// Inserts a new number, and then the same one again, which allocates nothing and so never fails.
fn insert_twice<R: Abort + Print>(
    rt: &R,
    arena: &mut UniqueArena<u32, Item>,
    number: u32,
) -> Result<(), Fail> {
    let handle = insert_again_if_refused(rt, arena, number)?;
    assert!(rt; handle.index() == number as usize);
    assert!(rt; !arena.is_full());
    let again = arena.insert(number)?;
    assert!(rt; again.index() == handle.index());
    assert!(rt; arena.len() == number as usize + 1);
    Ok(())
}

fn insert_twenty<R: Abort + Print>(rt: &R, arena: &mut UniqueArena<u32, Item>) -> Result<(), Fail> {
    for number in 0..20 {
        insert_twice(rt, arena, number)?;
    }
    Ok(())
}

#[test]
fn of_insert_in_a_unique_arena(rt: HostRuntime) -> Result<(), Fail> {
    let mut arena: UniqueArena<u32, Item> = UniqueArena::new(rt.alloc());
    insert_twenty(&rt, &mut arena)?;
    for (handle, item) in arena.iter() {
        assert!(rt; handle.index() == *item as usize);
    }
    Ok(())
}

/// Adds a value for the next handle; if that fails, takes it back and adds it again.
fn add_to_table<R: Abort + Print>(
    rt: &R,
    table: &mut HandleVec<Item, u32>,
    number: u32,
) -> Result<(), Fail> {
    let handle = Handle::from_index(number);
    assert!(rt; table.len() == handle.index());
    if let Err(AllocFailed { value }) = table.insert(handle, number) {
        println!(rt; "insert in a table was refused at length {}", table.len())?;
        assert!(rt; value == number && table.len() == handle.index());
        table.insert(handle, value)?;
    }
    assert!(rt; table.len() == handle.index() + 1);
    assert!(rt; table[handle] == number);
    Ok(())
}

#[test]
fn of_insert_in_a_table(rt: HostRuntime) -> Result<(), Fail> {
    let mut table: HandleVec<Item, u32> = HandleVec::new(rt.alloc());
    for number in 0..20 {
        add_to_table(&rt, &mut table, number)?;
    }
    assert!(rt; table.len() == 20);
    Ok(())
}

fn append_many<R: Abort + Print>(rt: &R, arena: &mut Arena<u32, Item>) -> Result<(), Fail> {
    for number in 0..130 {
        append_again_if_refused(rt, arena, number)?;
    }
    Ok(())
}

fn set_again_if_refused<R: Abort + Print>(
    rt: &R,
    alloc: Global,
    arena: &Arena<u32, Item>,
) -> Result<HandleSet<Item>, Fail>
    ensures { IfOk result (λ set. length set ≡ length arena.now) }
{
    if let Ok(set) = HandleSet::for_arena(alloc, arena) {
        return Ok(set);
    }
    println!(rt; "a set was refused")?;
    Ok(HandleSet::for_arena(alloc, arena)?)
}

#[test]
fn of_a_set_for_an_arena(rt: HostRuntime) -> Result<(), Fail> {
    let mut arena: Arena<u32, Item> = Arena::new(rt.alloc());
    append_many(&rt, &mut arena)?;
    assert!(rt; arena.len() == 130);
    let mut set = set_again_if_refused(&rt, rt.alloc(), &arena)?;
    assert!(rt; set.insert(Handle::from_index(129)));
    let mut members = set.iter();
    assert!(rt; members.next() == Some(Handle::from_index(129)));
    assert!(rt; members.next() == None);
    Ok(())
}
