// Where a row stands on the pages.
ghost use Rattle.std.specs.Prelude.{◌≡◌, ◌<◌, ◌≤◌, length, IfOk, IfSome};
ghost use Rattle.trial_loading.specs.Placing.{place_from, IsDamageAt};

use prov_base::Memory;
use std::alloc::Global;
use trace_rows::{Row, encode_page};
use trial_tables::Damage;

/// The page of the row with this number, and how many rows of that page stand before it.
fn place_of(cuts: &[u32], row: u32) -> Option<(usize, u32)>
    ensures place { result ≡ place_from 0 cuts.now row }
    ensures below { IfSome result (λ place. place.1 ≤ row) }
{
    let mut left = row;
    for (page, count) in cuts.iter().enumerate() {
        if left < *count {
            return Some((page, left));
        }
        left -= *count;
    }
    None
}

/// The damage of the row with this number: its page, and where it begins on that page.
pub(crate) fn damage_at(
    alloc: Global,
    rows: &[Row],
    cuts: &[u32],
    row: u32,
) -> Result<Damage, Memory>
    requires within { row < length rows.now }
    ensures { IfOk result (IsDamageAt rows.now cuts.now row) }
{
    let Some((page, left)) = place_of(cuts, row) else {
        return Err(Memory);
    };
    let Ok(page) = u32::try_from(page) else {
        return Err(Memory);
    };
    let (before, _) = rows.split_at(row as usize);
    let (_, front) = before.split_at((row - left) as usize);
    let bytes = encode_page(alloc, front)?;
    Ok(Damage::RowAt {
        page,
        byte: bytes.as_slice().len() as u64,
    })
}
