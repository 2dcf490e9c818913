// What the writes of a plan need together: so many cells, keys and bytes at most.
ghost use Rattle.std.specs.Prelude.{◌≡◌, ◌+◌, ◌^◌, ◌<◌, ◌≤◌, IfOk, IsOk, OnErr};
ghost use Rattle.object_store.specs.Room.{cells_of, cells_set, keys_of, keys_set, bytes_of, cells_in, keys_in, bytes_in_all, IsNamedAccess, AreNamedAccesses, AreCounted};

use prov_base::Memory;
use py_value::{Access, Change, Content, Location, Values};

/// So much room is needed.
#[derive(Clone, Copy, Debug)]
pub struct Need {
    pub cells: usize,
    pub keys: usize,
    pub bytes: usize,
}

impl Need {
    /// What a plan needs. It is refused where the numbers pass a word's range.
    pub fn of(plan: &[Access], values: &Values) -> Result<Need, Memory>
        requires { AreNamedAccesses values.now plan.now }
        ensures cells { IfOk result (λ need. need.cells ≡ cells_in plan.now) }
        ensures keys { IfOk result (λ need. need.keys ≡ keys_in plan.now) }
        ensures bytes { IfOk result (λ need. need.bytes ≡ bytes_in_all values.now plan.now) }
        ensures counted { AreCounted values.now plan.now → IsOk result }
    {
        let mut need = Need {
            cells: 0,
            keys: 0,
            bytes: 0,
        };
        for access in plan {
            need = need.and(access, values)?;
        }
        Ok(need)
    }

    // What is needed with one access more.
    fn and(self, access: &Access, values: &Values) -> Result<Need, Memory>
        requires { IsNamedAccess values.now access.now }
        ensures cells { IfOk result (λ need. need.cells ≡ self.cells + cells_of access.now) }
        ensures keys { IfOk result (λ need. need.keys ≡ self.keys + keys_of access.now) }
        ensures bytes { IfOk result (λ need. need.bytes ≡ self.bytes + bytes_of values.now access.now) }
        ensures counted { self.cells + cells_of access.now < 2 ^ 64 → self.keys + keys_of access.now < 2 ^ 64
            → self.bytes + bytes_of values.now access.now < 2 ^ 64 → IsOk result }
    {
        match access {
            Access::Read(_) => Ok(self),
            Access::Set(l, content) => Ok(Need {
                cells: sum(self.cells, cells_for(*l))?,
                keys: sum(self.keys, keys_for(content))?,
                bytes: self.bytes,
            }),
            Access::Update(_, Change::Insert(_)) => Ok(Need {
                cells: self.cells,
                keys: sum(self.keys, 1)?,
                bytes: self.bytes,
            }),
            Access::Update(_, Change::Delete(_)) => Ok(self),
            Access::Update(_, Change::Append(text)) => Ok(Need {
                cells: self.cells,
                keys: self.keys,
                bytes: sum(self.bytes, values.text_of(*text).len())?,
            }),
        }
    }
}

// The sum, where it is in range.
fn sum(a: usize, b: usize) -> Result<usize, Memory>
    ensures sum { IfOk result (λ s. s ≡ a + b) }
    ensures in_range { a + b < 2 ^ 64 → IsOk result }
{
    match a.checked_add(b) {
        Some(s) => Ok(s),
        None => Err(Memory),
    }
}

// How many cells a write there takes at most.
fn cells_for(l: Location) -> usize
    ensures { result ≡ cells_set l }
{
    match l {
        Location::Item(_, _) | Location::Order(_) | Location::File(_) => 0,
        _ => 1,
    }
}

// How many keys a content puts into an order.
fn keys_for(content: &Content) -> usize
    ensures { result ≡ keys_set content.now }
{
    match content {
        Content::Order(keys) => keys.as_slice().len(),
        _ => 0,
    }
}
