//! Adds items to maps, sets and arenas in which none stands twice.
ghost use Rattle.std.specs.Prelude.{◌≡◌, ◌≤◌, ◌<◌, ◌++◌, ◌∷◌, [], OnOk, length};
ghost use Rattle.std.specs.Map.{keys_of};
ghost use Rattle.shader_arena.specs.Positions.{most_items};
ghost use Rattle.shader_ir.specs.Same.{DecidesSame};
ghost use Rattle.shader_json_reader.specs.Answers.{IsUnrefused};
ghost use Rattle.shader_json_reader.specs.Shapes.{IsAbsent};

use indexmap::IndexSet;
use shader_arena::UniqueArena;
use shader_ir::Map;
use shader_json_reader::{Context, Failure};
use std::hash::Hash;

/// Adds an entry at the end of a map.
///
/// # Errors
///
/// An allocation failure, or a key that is in the map.
pub(crate) fn add_entry<K: Eq + Hash + Drop, V: Drop>(
    context: Context,
    entries: &mut Map<K, V>,
    key: K,
    value: V,
) -> Result<(), Failure>
    ensures added { OnOk result (entries.new ≡ entries.old ++ (key, value) ∷ []) }
    ensures absent { OnOk result (IsAbsent key (keys_of entries.old)) }
    ensures accepts { DecidesSame K.eq → IsAbsent key (keys_of entries.old) → IsUnrefused result }
{
    if entries.insert(key, value)?.is_some() {
        return Err(context.refused("a key that stands once"));
    }
    Ok(())
}

/// Adds a key at the end of a set.
///
/// # Errors
///
/// An allocation failure, or a key that is in the set.
pub(crate) fn add_key<K: Eq + Hash + Drop>(
    context: Context,
    keys: &mut IndexSet<K>,
    key: K,
) -> Result<(), Failure>
    ensures added { OnOk result (keys.new.keys ≡ keys.old.keys ++ key ∷ []) }
    ensures absent { OnOk result (IsAbsent key keys.old.keys) }
    ensures accepts { DecidesSame K.eq → IsAbsent key keys.old.keys → IsUnrefused result }
{
    if keys.insert(key)? {
        Ok(())
    } else {
        Err(context.refused("a key that stands once"))
    }
}

/// Adds the item of this index to an arena.
///
/// # Errors
///
/// An allocation failure, a full arena, or an item that is in the arena.
pub(crate) fn add_item<T: Eq + Hash + Drop, M>(
    context: Context,
    items: &mut UniqueArena<T, M>,
    index: usize,
    item: T,
) -> Result<(), Failure>
    requires { length items.old ≡ index }
    ensures added { OnOk result (items.new ≡ items.old ++ item ∷ []) }
    ensures absent { OnOk result (IsAbsent item items.old) }
    ensures room { OnOk result (length items.new ≤ most_items) }
    ensures accepts { DecidesSame T.eq → IsAbsent item items.old → length items.old < most_items → IsUnrefused result }
{
    if items.is_full() {
        return Err(context.refused("an array of at most 4294967295 types"));
    }
    items.insert(item)?;
    if items.len() == index {
        return Err(context.refused("a type that stands once").within(index));
    }
    Ok(())
}
