//! Maps that contracts see as the lists of their entries.
ghost use Rattle.std.specs.Prelude.{◌≡◌, ◌↔◌, [], length, IsTrue, IfOk, IfErr, OnOk, OnErr};
ghost use Rattle.std.specs.List.{IsDistinct};
ghost use Rattle.std.specs.Map.{keys_of, lookup};
ghost use Rattle.std.specs.Option.{option_copied};
ghost use Rattle.indexmap.specs.IndexMap.{insert_entry};

use crate::TryCopy;
use indexmap::IndexMap;
use indexmap::map::Iter;
use std::alloc::{AllocError, AllocFailed, Global};
use std::hash::Hash;
use std::marker::Model;

/// A map in insertion order, seen as the list of its entries. Wrapping an `IndexMap` and unwrapping it allocates nothing.
#[derive(Drop)]
pub struct Map<K: Eq + Hash, V> {
    entries: IndexMap<K, V>,
}

impl<K: Eq + Hash, V> Model for Map<K, V> {
    ghost use Rattle.std.specs.Prelude.{List};

    ghost Value = { List (K × V) };

    ghost view = { λ map. map.entries.entries };
}

impl<K: Eq + Hash, V> Map<K, V> {
    /// Returns a map with no entries. Allocates nothing.
    pub fn new(alloc: Global) -> Map<K, V>
        ensures { result ≡ [] }
    {
        Map {
            entries: IndexMap::new(alloc),
        }
    }

    /// Returns the number of entries.
    pub fn len(&self) -> usize
        ensures len { result ≡ length self.now }
        ensures distinct { IsDistinct K.eq (keys_of self.now) }
    {
        self.entries.len()
    }

    /// Returns whether there are no entries.
    pub fn is_empty(&self) -> bool
        ensures { IsTrue result ↔ (self.now ≡ []) }
    {
        self.entries.is_empty()
    }

    /// Returns the value of a key, if any.
    pub fn get(&self, key: &K) -> Option<&V>
        ensures { option_copied result ≡ lookup (K.eq key.now) self.now }
    {
        self.entries.get(key)
    }

    /// Sets the value of a key and returns the old one. A new key is added at the end.
    ///
    /// # Errors
    ///
    /// Hands key and value back if allocation fails.
    pub fn insert(&mut self, key: K, value: V) -> Result<Option<V>, AllocFailed<(K, V)>>
    where
        K: Drop,
        ensures old { IfOk result (λ old. old ≡ lookup (K.eq key) self.old) }
        ensures entries { OnOk result (self.new ≡ insert_entry K.eq self.old key value) }
        ensures value_returned { IfErr result (λ failed. failed.value ≡ (key, value)) }
        ensures err { OnErr result (self.new ≡ self.old) }
    {
        self.entries.insert(key, value)
    }

    /// Returns an iterator over the keys and values, in order.
    pub fn iter(&self) -> Iter<'_, K, V>
        ensures { result ≡ self.now }
    {
        self.entries.iter()
    }

    /// Returns the wrapped `IndexMap`.
    pub fn into_index_map(self) -> IndexMap<K, V>
        ensures { result.entries ≡ self }
    {
        let Map { entries } = self;
        entries
    }
}

impl<K: Eq + Hash + TryCopy, V: TryCopy> Map<K, V> {
    /// Returns an equal map.
    ///
    /// # Errors
    ///
    /// `AllocError` if allocating the map or copying a key or value fails.
    pub fn copy(&self, alloc: Global) -> Result<Map<K, V>, AllocError>
        ensures { IfOk result (λ copy. copy ≡ self.now) }
    {
        let mut entries = IndexMap::with_capacity(alloc, self.len())?;
        for (key, value) in self.iter() {
            entries.insert(key.try_copy(alloc)?, value.try_copy(alloc)?)?;
        }
        Ok(Map { entries })
    }
}

impl<K: Eq + Hash, V> From<IndexMap<K, V>> for Map<K, V> {
    ghost from_gives = { λ entries map. map ≡ entries.entries };

    fn from(entries: IndexMap<K, V>) -> Map<K, V> {
        Map { entries }
    }
}
