// The arithmetic of chunks: how much room each has, in which chunk and at which place of it an item lies, and how many
// chunks so many items take. It stands on nothing.
ghost use Rattle.std.specs.Prelude.{◌≡◌, ◌-◌, ◌<◌, ◌≤◌};
ghost use Rattle.region_pool.specs.Places.{room_of, room_of_first, IsPlace};

// A place in a list of chunks: the chunk, and the item of that chunk, both counted from 0.
#[derive(Clone, Copy)]
pub(crate) struct Place {
    pub(crate) chunk: usize,
    pub(crate) at: usize,
}

// How many items a chunk has room for.
pub(crate) fn room(chunk: usize) -> usize
    requires { chunk < 64 }
    ensures { result ≡ room_of chunk }
{
    1 << chunk
}

// Where the item with this name lies.
pub(crate) fn place_of(name: u32) -> Place
    ensures { IsPlace name result.chunk result.at }
{
    let count = name as usize + 1;
    let chunk = count.ilog2() as usize;
    Place {
        chunk,
        at: count - room(chunk),
    }
}

// How many chunks so many items take, at least.
pub(crate) fn chunks_for(items: u32) -> usize
    ensures few { result ≤ 32 }
    ensures enough { items ≤ room_of_first result }
    ensures least { 0 < result → room_of_first (result - 1) < items }
{
    if items == 0 {
        return 0;
    }
    items.ilog2() as usize + 1
}
