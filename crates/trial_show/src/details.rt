// What is amiss of a trial, in words.
ghost use Rattle.std.specs.Prelude.{◌≡◌, ◌++◌, codes, IfOk};
ghost use Rattle.std.specs.Fmt.{decimal};
ghost use Rattle.std.specs.String.{string_bytes};
ghost use Rattle.trial_show.specs.Details.{detail};
ghost use Rattle.trial_tables.specs.declared.damage.Damage.TheVariants.{PageDigest, PageAbsent, RowAt, ContentDigest, ContentAbsent, RecordAt};

use crate::lines::digits_of;
use prov_base::Digest;
use std::alloc::{AllocError, Global};
use trial_tables::Damage;

/// That a page has other bytes than those of its digest; the digests are given as digits.
fn page_text(alloc: Global, page: u32, kept: &str, found: &str) -> Result<String, AllocError>
    ensures { IfOk result (λ made. string_bytes made ≡ codes "page " ++ decimal page ++ codes " kept " ++ kept.now ++ codes " found " ++ found.now) }
{
    format!(in alloc; "page {page} kept {kept} found {found}")
}

/// That a page has other bytes than those of its digest.
fn page_digest(
    alloc: Global,
    page: u32,
    kept: &Digest,
    found: &Digest,
) -> Result<String, AllocError>
    ensures { IfOk result (λ made. string_bytes made ≡ detail (PageDigest page kept.now found.now)) }
{
    let first = digits_of(alloc, kept)?;
    let second = digits_of(alloc, found)?;
    page_text(alloc, page, first.as_str(), second.as_str())
}

/// That a page is not there.
fn page_absent(alloc: Global, page: u32) -> Result<String, AllocError>
    ensures { IfOk result (λ made. string_bytes made ≡ detail (PageAbsent page)) }
{
    format!(in alloc; "page {page} absent")
}

/// That a row is none, or none that may stand there.
fn row_at(alloc: Global, page: u32, byte: u64) -> Result<String, AllocError>
    ensures { IfOk result (λ made. string_bytes made ≡ detail (RowAt page byte)) }
{
    format!(in alloc; "row at page {page} byte {byte}")
}

/// That other bytes stand under a digest; the digests are given as digits.
fn content_text(alloc: Global, kept: &str, found: &str) -> Result<String, AllocError>
    ensures { IfOk result (λ made. string_bytes made ≡ codes "content " ++ kept.now ++ codes " found " ++ found.now) }
{
    format!(in alloc; "content {kept} found {found}")
}

/// That other bytes stand under a digest.
fn content_digest(alloc: Global, kept: &Digest, found: &Digest) -> Result<String, AllocError>
    ensures { IfOk result (λ made. string_bytes made ≡ detail (ContentDigest kept.now found.now)) }
{
    let first = digits_of(alloc, kept)?;
    let second = digits_of(alloc, found)?;
    content_text(alloc, first.as_str(), second.as_str())
}

/// That nothing stands under the digest with these digits.
fn absent_text(alloc: Global, digest: &str) -> Result<String, AllocError>
    ensures { IfOk result (λ made. string_bytes made ≡ codes "content " ++ digest.now ++ codes " absent") }
{
    format!(in alloc; "content {digest} absent")
}

/// That nothing stands under a digest.
fn content_absent(alloc: Global, digest: &Digest) -> Result<String, AllocError>
    ensures { IfOk result (λ made. string_bytes made ≡ detail (ContentAbsent digest.now)) }
{
    let digits = digits_of(alloc, digest)?;
    absent_text(alloc, digits.as_str())
}

/// That an item of the record under the digest with these digits is none.
fn record_text(alloc: Global, digest: &str, byte: u64) -> Result<String, AllocError>
    ensures { IfOk result (λ made. string_bytes made ≡ codes "record " ++ digest.now ++ codes " byte " ++ decimal byte) }
{
    format!(in alloc; "record {digest} byte {byte}")
}

/// That an item of a record is none.
fn record_at(alloc: Global, digest: &Digest, byte: u64) -> Result<String, AllocError>
    ensures { IfOk result (λ made. string_bytes made ≡ detail (RecordAt digest.now byte)) }
{
    let digits = digits_of(alloc, digest)?;
    record_text(alloc, digits.as_str(), byte)
}

/// That the script is refused at this place.
fn script_at(alloc: Global, line: u32, column: u32) -> Result<String, AllocError>
    ensures { IfOk result (λ made. string_bytes made ≡ codes "script at " ++ decimal line ++ codes ":" ++ decimal column) }
{
    format!(in alloc; "script at {line}:{column}")
}

/// What is amiss of a trial, in words, as a closing line has it.
pub fn detail_text(alloc: Global, damage: Damage) -> Result<String, AllocError>
    ensures { IfOk result (λ made. string_bytes made ≡ detail damage) }
{
    match damage {
        Damage::Path => String::from_str(alloc, "path"),
        Damage::PageDigest { page, kept, found } => page_digest(alloc, page, &kept, &found),
        Damage::PageAbsent { page } => page_absent(alloc, page),
        Damage::RowAt { page, byte } => row_at(alloc, page, byte),
        Damage::ContentDigest { kept, found } => content_digest(alloc, &kept, &found),
        Damage::ContentAbsent { digest } => content_absent(alloc, &digest),
        Damage::RecordAt { digest, byte } => record_at(alloc, &digest, byte),
        Damage::ScriptAt { at } => script_at(alloc, at.line, at.col),
    }
}
