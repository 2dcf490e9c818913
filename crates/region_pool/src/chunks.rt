// What is done to a list of chunks: chunks are added behind it, each made whole, and all items but the first are dropped.
ghost use Rattle.std.specs.Prelude.{◌≡◌, ◌+◌, ◌-◌, ◌<◌, ◌≤◌, [], ◌++◌, max, vec_len, vec_capacity, replicate, IsOk, OnOk, OnErr};
ghost use Rattle.region_pool.specs.Layout.{contents, rooms, cut, AddsChunks};
ghost use Rattle.region_pool.specs.Places.{first_rooms};

use crate::NoRoom;
use crate::places::room;
use std::alloc::Global;

// Adds empty chunks until there are so many. A chunk is made with its whole capacity, so that no push into it takes
// memory. After an `Err`, for lack of memory, the chunks are those from before.
pub(crate) fn add_chunks<T: Drop>(
    chunks: &mut Vec<Vec<T>>,
    alloc: Global,
    count: usize,
) -> Result<(), NoRoom>
    requires few { count ≤ 32 }
    requires listed { vec_capacity chunks.old ≡ 32 }
    requires whole { rooms chunks.old.items ≡ first_rooms (vec_len chunks.old) }
    ensures adds { AddsChunks chunks.old chunks.new count }
    ensures ok { OnOk result (count ≤ vec_len chunks.new) }
    ensures there { count ≤ vec_len chunks.old → IsOk result }
    ensures err { OnErr result (chunks.new.items ≡ chunks.old.items) }
{
    let before = chunks.len();
    for chunk in before..count {
        match Vec::with_capacity(alloc, room(chunk)) {
            Ok(made) => chunks.push_reserved(made),
            Err(_) => {
                chunks.truncate(before);
                return Err(NoRoom);
            }
        }
    }
    Ok(())
}

// Drops all items but the first, of which so many stay. The chunks stay, with their memory.
pub(crate) fn keep_first<T: Drop>(chunks: &mut Vec<Vec<T>>, count: usize)
    ensures contents { contents chunks.new.items ≡ cut count (contents chunks.old.items) }
    ensures rooms { rooms chunks.new.items ≡ rooms chunks.old.items }
    ensures listed { vec_capacity chunks.new ≡ vec_capacity chunks.old }
{
    let mut left = count;
    for chunk in chunks.iter_mut() {
        chunk.truncate(left);
        left -= chunk.len();
    }
}
