// Lists of entries with a key, in which a later entry stands over an earlier one with the same key.
ghost use Rattle.std.specs.Prelude.{◌≡◌};
ghost use Rattle.std.specs.Option.{option_copied};
ghost use Rattle.keeper.specs.Batch.{last_head, last_page, last_content, last_current};

use crate::{Head, Page};
use prov_base::{Bytes, Digest, Name};

// The last head with this number.
pub(crate) fn head_in(heads: &[(u32, Head)], trial: u32) -> Option<&Head>
    ensures { option_copied result ≡ last_head heads.now trial }
{
    let entry = heads.iter().rev().find(|entry| entry.0 == trial)?;
    Some(&entry.1)
}

/// The page with this trial and number that was put last.
pub fn page_in(pages: &[(u32, u32, Page)], trial: u32, number: u32) -> Option<&Page>
    ensures { option_copied result ≡ last_page pages.now trial number }
{
    let entry = pages
        .iter()
        .rev()
        .find(|entry| entry.0 == trial && entry.1 == number)?;
    Some(&entry.2)
}

/// The content with this digest that was put last.
pub fn content_in<'a>(contents: &'a [(Digest, Bytes)], digest: &Digest) -> Option<&'a Bytes>
    ensures { option_copied result ≡ last_content contents.now digest.now }
{
    let entry = contents.iter().rev().find(|entry| entry.0 == *digest)?;
    Some(&entry.1)
}

/// The trial that was made current for this path last.
pub fn current_in(current: &[(Name, u32)], path: &str) -> Option<u32>
    ensures { result ≡ last_current current.now path.now }
{
    let entry = current.iter().rev().find(|entry| entry.0.as_str() == path)?;
    Some(entry.1)
}
