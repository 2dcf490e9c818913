// The pages of a trial, added one by one.
ghost use Rattle.std.specs.Prelude.{◌≡◌, ◌<◌, IsTrue, IfSome, IfOk, IfErr, length, map, drop};
ghost use Rattle.prov_outside.specs.Tells.{Tells};
ghost use Rattle.keeper.specs.Keeping.{AreKept, LeavesAmong};
ghost use Rattle.keeper.specs.Tables.{HasTrial, with_page};
ghost use Rattle.content_store.specs.Contents.{digest_of};
ghost use Rattle.trial_tables.specs.Causes.{Causes};
ghost use Rattle.trial_tables.specs.WriteFault.{has_failed};
ghost use Rattle.trial_tables.specs.Stages.{Writes, HasNoPagesFrom};
ghost use Rattle.trial_tables.specs.Written.{put, page_of, with_pages};

use crate::write_fault::WriteFault;
use keeper::{Keeper, Page, copied_bytes};
use prov_base::{Bytes, Digest};
use sha1::Sha1;
use std::alloc::Global;

/// A page of these bytes, with their digest.
fn page_with(alloc: Global, bytes: &[u8]) -> Result<Page, WriteFault>
    ensures page { IfOk result (λ page. page ≡ page_of bytes.now) }
    ensures fault { IfErr result (λ fault. fault ≡ WriteFault.Memory) }
{
    match copied_bytes(alloc, bytes) {
        Ok(copy) => Ok(Page {
            digest: Digest {
                bytes: Sha1::digest(bytes),
            },
            bytes: copy,
        }),
        Err(_) => Err(WriteFault::Memory),
    }
}

/// Adds one page of a trial, in the open batch.
fn add_page<K: Keeper>(
    alloc: Global,
    keeper: &mut K,
    trial: u32,
    number: u32,
    bytes: &[u8],
) -> Result<(), WriteFault>
    requires batch { IsTrue (K.is_open keeper.old) }
    requires kept { IfSome (K.told keeper.old) (AreKept (K.is_open keeper.old)) }
    requires trial { IfSome (K.told keeper.old) (λ kept. HasTrial kept.seen trial) }
    requires new { IfSome (K.told keeper.old) (λ kept. HasNoPagesFrom trial number kept.seen) }
    ensures writes { Tells (K.told keeper.old) (K.told keeper.new) (Writes (λ tables. put (with_page trial number (page_of bytes.now) tables)) result) }
    ensures kept { IfSome (K.told keeper.new) (AreKept (K.is_open keeper.new)) }
    ensures stops { Tells (K.told keeper.old) (K.told keeper.new) (λ _ _. LeavesAmong (K.may_leave keeper.old) (K.may_leave keeper.new)) }
    ensures batch { K.is_open keeper.new ≡ K.is_open keeper.old }
    ensures cause { Causes (has_failed result) (K.faults keeper.old) (K.faults keeper.new) }
{
    let page = match page_with(alloc, bytes) {
        Ok(page) => page,
        Err(fault) => return Err(fault),
    };
    match keeper.add_page(alloc, trial, number, &page) {
        Ok(()) => Ok(()),
        Err(fault) => Err(WriteFault::from(fault)),
    }
}

/// Adds the pages of a trial that has none yet, numbered from 0, in the open batch.
pub(crate) fn add_pages<K: Keeper>(
    alloc: Global,
    keeper: &mut K,
    trial: u32,
    pages: &[Bytes],
) -> Result<(), WriteFault>
    requires few { length pages.now < 4294967296 }
    requires batch { IsTrue (K.is_open keeper.old) }
    requires kept { IfSome (K.told keeper.old) (AreKept (K.is_open keeper.old)) }
    requires trial { IfSome (K.told keeper.old) (λ kept. HasTrial kept.seen trial) }
    requires new { IfSome (K.told keeper.old) (λ kept. HasNoPagesFrom trial 0 kept.seen) }
    ensures writes { Tells (K.told keeper.old) (K.told keeper.new) (Writes (λ tables. put (with_pages trial 0 pages.now tables)) result) }
    ensures trial { IfOk result (λ _. IfSome (K.told keeper.new) (λ kept. HasTrial kept.seen trial)) }
    ensures kept { IfSome (K.told keeper.new) (AreKept (K.is_open keeper.new)) }
    ensures stops { Tells (K.told keeper.old) (K.told keeper.new) (λ _ _. LeavesAmong (K.may_leave keeper.old) (K.may_leave keeper.new)) }
    ensures batch { K.is_open keeper.new ≡ K.is_open keeper.old }
    ensures cause { Causes (has_failed result) (K.faults keeper.old) (K.faults keeper.new) }
{
    let mut number: u32 = 0;
    for bytes in pages {
        if let Err(fault) = add_page(alloc, keeper, trial, number, bytes.as_slice()) {
            return Err(fault);
        }
        number += 1;
    }
    Ok(())
}
