// Contents and pages, each with its digest.
ghost use Rattle.std.specs.Prelude.{◌≡◌, IfSome, MatchResult};
ghost use Rattle.content_store.specs.Contents.{digest_of as sha1_digest_of};
ghost use Rattle.prov_outside.specs.Tells.{Tells};
ghost use Rattle.keeper.specs.Keeping.{AreKept, LeavesAmong};
ghost use Rattle.trial_tables.specs.Causes.{Causes};
ghost use Rattle.trial_tables.specs.ReadFault.{has_failed};
ghost use Rattle.trial_tables.specs.Found.{Finds, items_of};
ghost use Rattle.trial_tables.specs.Whole.{content_in, contents_in, page_in, whole_content, whole_page, fine, damaged};

use crate::damage::Damage;
use crate::read_fault::ReadFault;
use keeper::{Keeper, Page};
use prov_base::{Bytes, Digest};
use sha1::Sha1;
use std::alloc::Global;

/// The SHA-1 digest of bytes.
fn digest_of(bytes: &[u8]) -> Digest
    ensures { result ≡ sha1_digest_of bytes.now }
{
    Digest {
        bytes: Sha1::digest(bytes),
    }
}

/// What was found under a digest, where it has that digest.
fn checked_content(digest: &Digest, found: Option<Bytes>) -> Result<Bytes, Damage>
    ensures { MatchResult result (λ bytes. whole_content digest.now found ≡ fine bytes) (λ damage. whole_content digest.now found ≡ damaged damage) }
{
    let Some(bytes) = found else {
        return Err(Damage::ContentAbsent { digest: *digest });
    };
    let has = digest_of(bytes.as_slice());
    if has.bytes != digest.bytes {
        return Err(Damage::ContentDigest {
            kept: *digest,
            found: has,
        });
    }
    Ok(bytes)
}

/// The bytes of a page, where they have the digest that is kept with it.
fn checked_page(number: u32, found: Option<Page>) -> Result<Bytes, Damage>
    ensures { MatchResult result (λ bytes. whole_page number found ≡ fine bytes) (λ damage. whole_page number found ≡ damaged damage) }
{
    let Some(page) = found else {
        return Err(Damage::PageAbsent { page: number });
    };
    let has = digest_of(page.bytes.as_slice());
    if has.bytes != page.digest.bytes {
        return Err(Damage::PageDigest {
            page: number,
            kept: page.digest,
            found: has,
        });
    }
    Ok(page.bytes)
}

/// The content under a digest: it is damaged where nothing stands there, and where other bytes do.
pub fn content<K: Keeper>(
    alloc: Global,
    keeper: &mut K,
    digest: &Digest,
) -> Result<Bytes, ReadFault>
    ensures finds { Tells (K.told keeper.old) (K.told keeper.new) (Finds (λ tables. content_in tables digest.now) result) }
    ensures kept { IfSome (K.told keeper.new) (AreKept (K.is_open keeper.new)) }
    ensures stops { Tells (K.told keeper.old) (K.told keeper.new) (λ _ _. LeavesAmong (K.may_leave keeper.old) (K.may_leave keeper.new)) }
    ensures batch { K.is_open keeper.new ≡ K.is_open keeper.old }
    ensures cause { Causes (has_failed result) (K.faults keeper.old) (K.faults keeper.new) }
{
    let found = match keeper.content(alloc, digest) {
        Ok(found) => found,
        Err(fault) => return Err(ReadFault::from(fault)),
    };
    match checked_content(digest, found) {
        Ok(bytes) => Ok(bytes),
        Err(damage) => Err(ReadFault::Damaged(damage)),
    }
}

/// The bytes of a trial's page with this number, from 0: it is damaged where it is not there, and where its bytes do not have the digest that is
/// kept with it.
pub fn page<K: Keeper>(
    alloc: Global,
    keeper: &mut K,
    trial: u32,
    number: u32,
) -> Result<Bytes, ReadFault>
    ensures finds { Tells (K.told keeper.old) (K.told keeper.new) (Finds (λ tables. page_in tables trial number) result) }
    ensures kept { IfSome (K.told keeper.new) (AreKept (K.is_open keeper.new)) }
    ensures stops { Tells (K.told keeper.old) (K.told keeper.new) (λ _ _. LeavesAmong (K.may_leave keeper.old) (K.may_leave keeper.new)) }
    ensures batch { K.is_open keeper.new ≡ K.is_open keeper.old }
    ensures cause { Causes (has_failed result) (K.faults keeper.old) (K.faults keeper.new) }
{
    let found = match keeper.page(alloc, trial, number) {
        Ok(found) => found,
        Err(fault) => return Err(ReadFault::from(fault)),
    };
    match checked_page(number, found) {
        Ok(bytes) => Ok(bytes),
        Err(damage) => Err(ReadFault::Damaged(damage)),
    }
}

/// The contents under these digests, in their order: damaged as the first of them is that is damaged.
pub fn contents<K: Keeper>(
    alloc: Global,
    keeper: &mut K,
    digests: &[Digest],
) -> Result<Vec<Bytes>, ReadFault>
    requires kept { IfSome (K.told keeper.old) (AreKept (K.is_open keeper.old)) }
    ensures finds { Tells (K.told keeper.old) (K.told keeper.new) (Finds (λ tables. contents_in tables digests.now) (items_of result)) }
    ensures kept { IfSome (K.told keeper.new) (AreKept (K.is_open keeper.new)) }
    ensures stops { Tells (K.told keeper.old) (K.told keeper.new) (λ _ _. LeavesAmong (K.may_leave keeper.old) (K.may_leave keeper.new)) }
    ensures batch { K.is_open keeper.new ≡ K.is_open keeper.old }
    ensures cause { Causes (has_failed result) (K.faults keeper.old) (K.faults keeper.new) }
{
    let mut gathered: Vec<Bytes> = Vec::new(alloc);
    for digest in digests {
        let bytes = match content(alloc, keeper, digest) {
            Ok(bytes) => bytes,
            Err(fault) => return Err(fault),
        };
        if gathered.push(bytes).is_err() {
            return Err(ReadFault::Memory);
        }
    }
    Ok(gathered)
}
