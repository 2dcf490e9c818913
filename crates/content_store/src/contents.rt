// Putting a content under its digest, and getting one.
ghost use Rattle.std.specs.Prelude.{◌≡◌, IsTrue, IfOk, IfErr, IfSome};
ghost use Rattle.prov_outside.specs.Tells.{Tells};
ghost use Rattle.keeper.specs.Count.{Counts};
ghost use Rattle.keeper.specs.Fault.{has_failed as keeper_failed};
ghost use Rattle.keeper.specs.Keeping.{AreKept, Reads, LeavesAmong};
ghost use Rattle.content_store.specs.Contents.{Puts, NamesGiven, digest_of};
ghost use Rattle.content_store.specs.Fault.{has_failed};

use crate::ContentFault;
use keeper::{KeepFault, Keeper};
use prov_base::{Bytes, Digest};
use sha1::Sha1;
use std::alloc::Global;

/// Puts bytes under their SHA-1 digest, in the open batch, and answers the digest. Bytes that stand there already are
/// not added again. Where other bytes stand there the answer is `Collision`, with the number of these and of the given
/// bytes, and nothing is changed.
pub fn put<K: Keeper>(alloc: Global, keeper: &mut K, bytes: &[u8]) -> Result<Digest, ContentFault>
    requires { IsTrue (K.is_open keeper.old) }
    ensures digest { IfOk result (λ digest. digest ≡ digest_of bytes.now) }
    ensures puts { Tells (K.told keeper.old) (K.told keeper.new) (Puts bytes.now result) }
    ensures named { IfErr result (NamesGiven bytes.now) }
    ensures kept { IfSome (K.told keeper.new) (AreKept (K.is_open keeper.new)) }
    ensures stops { Tells (K.told keeper.old) (K.told keeper.new) (λ _ _. LeavesAmong (K.may_leave keeper.old) (K.may_leave keeper.new)) }
    ensures batch { K.is_open keeper.new ≡ K.is_open keeper.old }
    ensures cause { Counts (has_failed result) (K.faults keeper.old) (K.faults keeper.new) }
{
    let digest = Digest {
        bytes: Sha1::digest(bytes),
    };
    let Some(kept) = keeper.content(alloc, &digest)? else {
        keeper.add_content(alloc, &digest, bytes)?;
        return Ok(digest);
    };
    if kept.as_slice() == bytes {
        return Ok(digest);
    }
    Err(ContentFault::Collision {
        digest,
        kept_len: kept.as_slice().len() as u64,
        given_len: bytes.len() as u64,
    })
}

/// The bytes that stand under a digest, with an open batch or none.
pub fn get<K: Keeper>(
    alloc: Global,
    keeper: &mut K,
    digest: &Digest,
) -> Result<Option<Bytes>, KeepFault>
    ensures reads { Tells (K.told keeper.old) (K.told keeper.new) (Reads (λ tables. tables.contents digest.now) result) }
    ensures kept { IfSome (K.told keeper.new) (AreKept (K.is_open keeper.new)) }
    ensures stops { Tells (K.told keeper.old) (K.told keeper.new) (λ _ _. LeavesAmong (K.may_leave keeper.old) (K.may_leave keeper.new)) }
    ensures batch { K.is_open keeper.new ≡ K.is_open keeper.old }
    ensures cause { Counts (keeper_failed result) (K.faults keeper.old) (K.faults keeper.new) }
{
    keeper.content(alloc, digest)
}
