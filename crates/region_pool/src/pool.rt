// The region whose items have names. It stands on the chunks and on the arithmetic of their places.
ghost use Rattle.std.specs.Prelude.{◌≡◌, ◌+◌, ◌-◌, ◌*◌, ◌^◌, ◌<◌, ◌≤◌, [], ◌∷◌, ◌++◌, length, take, slice_get, Some, IfOk, IsOk, IsErr, OnOk, OnErr};
ghost use Rattle.std.specs.Borrow.{sem};

use crate::chunks::{add_chunks, keep_first};
use crate::places::{chunks_for, place_of};
use crate::{Mark, NoRoom};
use std::alloc::Global;
use std::marker::Model;

// So many chunks have room for as many items as there are names.
const MOST_CHUNKS: usize = 32;

/// A region of items, named from 0 in the order in which they were put. Contracts see the list of them, `items`, and
/// for how many more there is room, `spare`. Only `new` and `reserve` take memory. A pool has 2^32-1 names.
#[derive(Drop, Debug)]
pub struct Pool<T> {
    chunks: Vec<Vec<T>>,
    len: u32,
}

impl<T> Model for Pool<T> {
    ghost use Rattle.std.specs.Prelude.{vec_capacity};
    ghost use Rattle.region_pool.specs.Pool.{PoolView, view_code};
    ghost use Rattle.region_pool.specs.Layout.{contents, rooms, view_of, IsLaidOut};

    ghost Value = { PoolView T };

    ghost coded = { view_code T.code };

    ghost view = { λ p. view_of p.chunks.items p.len };

    ghost invariant = { λ p. IsLaidOut (contents p.chunks.items) (rooms p.chunks.items) (vec_capacity p.chunks) p.len };
}

impl<T> Pool<T> {
    ghost use Rattle.region_pool.specs.Lends.{LendsItem};

    /// A pool with no item and no room. It takes memory for its list of chunks, which never grows.
    pub fn new(alloc: Global) -> Result<Pool<T>, NoRoom>
        ensures { IfOk result (λ pool. pool ≡ record { items = []; spare = 0 }) }
    {
        Ok(Pool {
            chunks: Vec::with_capacity(alloc, MOST_CHUNKS)?,
            len: 0,
        })
    }

    /// How many items there are.
    pub fn len(&self) -> u32
        ensures count { result ≡ length self.now.items }

        // Whatever there is room for has a name.
        ensures named { length self.now.items + self.now.spare < 2 ^ 32 }
    {
        self.len
    }

    /// Puts an item behind all others and answers its name. It needs room, and so takes no memory and cannot fail.
    pub fn put(&mut self, item: T) -> u32
        requires { 0 < self.old.spare }
        ensures name { result ≡ length self.old.items }
        ensures items { self.new.items ≡ self.old.items ++ item ∷ [] }
        ensures spare { self.new.spare + 1 ≡ self.old.spare }
    {
        let name = self.len;
        let place = place_of(name);
        self.chunks[place.chunk].push_reserved(item);
        self.len = name + 1;
        name
    }

    /// The item with this name.
    pub fn get(&self, name: u32) -> &T
        requires { name < length self.now.items }
        ensures { slice_get self.now.items name ≡ Some result.now }
    {
        let place = place_of(name);
        &self.chunks[place.chunk][place.at]
    }

    /// The item with this name, to be written.
    pub fn get_mut(&mut self, name: u32) -> &mut T
        requires { name < length self.old.items }
        ensures* writes_back { sem 𝓛 (LendsItem T.row self.entry name result) }
        ensures value { slice_get self.old.items name ≡ Some result.now }
    {
        let place = place_of(name);
        &mut self.chunks[place.chunk][place.at]
    }

    /// The length as it is now, to rewind to.
    pub fn mark(&self) -> Mark
        ensures { result ≡ length self.now.items }
    {
        Mark::at(self.len)
    }
}

impl<T: Drop> Pool<T> {
    /// Makes room for `n` more items at least. What was taken before a refusal is given back.
    pub fn reserve(&mut self, alloc: Global, n: u32) -> Result<(), NoRoom>
        ensures room { OnOk result (n ≤ self.new.spare) }
        ensures items { self.new.items ≡ self.old.items }
        ensures grows { self.old.spare ≤ self.new.spare }

        // Where there was room already, nothing is taken, and else less than twice what is needed in all.
        ensures had_room { n ≤ self.old.spare → IsOk result }
        ensures no_more { n ≤ self.old.spare → self.new ≡ self.old }
        ensures frugal { self.old.spare < n
            → length self.new.items + self.new.spare < 2 * (length self.old.items + n) }

        // Beside out of memory it is want of names that refuses.
        ensures names { 2 ^ 32 ≤ length self.old.items + n → IsErr result }
        ensures err { OnErr result (self.new ≡ self.old) }
    {
        let Some(items) = self.len.checked_add(n) else {
            return Err(NoRoom);
        };
        add_chunks(&mut self.chunks, alloc, chunks_for(items))
    }

    /// Drops all items past a mark, whose room can be used again. The mark may be one of another pool.
    pub fn rewind(&mut self, mark: Mark)
        requires { mark ≤ length self.old.items }
        ensures items { self.new.items ≡ take mark self.old.items }
        ensures spare { self.new.spare ≡ self.old.spare + (length self.old.items - mark) }
    {
        let len = mark.len();
        keep_first(&mut self.chunks, len as usize);
        self.len = len;
    }
}
