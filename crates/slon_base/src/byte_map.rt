// A map with keys of bytes, in the order of the bytes.
ghost use Rattle.std.specs.Prelude.{◌≡◌, OnOk, OnErr};
ghost use Rattle.std.specs.Option.{option_copied};
ghost use Rattle.std.specs.FinMap.{get, insert, remove, contains_key, len, entries, empty};
ghost use Rattle.slon_base.specs.ByteMap.{pairs};

use std::alloc::{AllocError, Global};
use std::collections::BTreeMap;
use std::collections::btree_map::{IntoIter, Iter};
use std::marker::Model;

/// A map with keys of bytes. Contracts see it as a finite map in the order of the bytes.
#[derive(Drop)]
pub struct ByteMap<V> {
    inner: BTreeMap<Vec<u8>, V>,
}

impl<V> Model for ByteMap<V> {
    ghost use Rattle.std.specs.Prelude.{◌≡◌, true};
    ghost use Rattle.std.specs.FinMap as finite;
    ghost use Rattle.std.specs.Coded.{coded_ℕ, coded_list};
    ghost use Rattle.slon_base.specs.Keeper.{key_cmp};
    ghost use Rattle.slon_base.specs.ByteMap.{pairs};

    ghost Value = { finite.FinMap key_cmp V };

    ghost coded = { finite.code (coded_list coded_ℕ) V.code };

    ghost view = { λ m. finite.from_sorted (pairs m.inner.entries) };

    ghost invariant = { λ m. finite.is_sorted key_cmp (pairs m.inner.entries) ≡ true };
}

impl<V: Drop> ByteMap<V> {
    /// An empty map.
    pub fn new(alloc: Global) -> ByteMap<V>
        ensures { result ≡ empty }
    {
        ByteMap {
            inner: BTreeMap::new(alloc),
        }
    }

    /// How many keys it has.
    pub fn len(&self) -> usize
        ensures { result ≡ len self.now }
    {
        self.inner.len()
    }

    /// The value at a key.
    pub fn get(&self, key: &[u8]) -> Option<&V>
        ensures { option_copied result ≡ get self.now key.now }
    {
        self.inner.get(key)
    }

    /// Whether the key is there.
    pub fn contains_key(&self, key: &[u8]) -> bool
        ensures { result ≡ contains_key self.now key.now }
    {
        self.inner.contains_key(key)
    }

    /// Puts a value at a key, in the place of the one that is there, or leaves all as it was.
    pub fn insert(&mut self, key: Vec<u8>, value: V) -> Result<(), AllocError>
        ensures ok { OnOk result (self.new ≡ insert self.old key.items value) }
        ensures err { OnErr result (self.new ≡ self.old) }
    {
        self.inner.insert(key, value)?;
        Ok(())
    }

    /// Takes the pair of a key away and answers its value, if it is there.
    pub fn remove(&mut self, key: &[u8]) -> Option<V>
        ensures value { result ≡ get self.old key.now }
        ensures map { self.new ≡ remove self.old key.now }
    {
        self.inner.remove(key)
    }

    /// The entries in the order of their keys.
    pub fn iter(&self) -> Iter<'_, Vec<u8>, V>
        ensures { pairs result ≡ entries self.now }
    {
        self.inner.iter()
    }

    /// The entries in the order of their keys, as values.
    pub fn into_entries(self) -> IntoIter<Vec<u8>, V, Global>
        ensures { pairs result ≡ entries self }
    {
        let ByteMap { inner } = self;
        inner.into_iter()
    }
}
