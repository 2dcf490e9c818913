// The pages of a trial, gathered up to the first that is amiss by itself.
ghost use Rattle.std.specs.Prelude.{◌≡◌, ◌++◌, ◌∷◌, [], IfSome, IfOk, IfErr};
ghost use Rattle.prov_outside.specs.Tells.{Tells};
ghost use Rattle.keeper.specs.Keeping.{AreKept, LeavesAmong};
ghost use Rattle.trial_tables.specs.Causes.{Causes};
ghost use Rattle.trial_tables.specs.ReadFault.{has_failed};
ghost use Rattle.trial_tables.specs.Whole.{page_in};
ghost use Rattle.trial_loading.specs.Answers.{Answers};
ghost use Rattle.trial_loading.specs.Gathering.{CountsRows, IsOnePage, IsGathered};
ghost use Rattle.trial_loading.specs.TrialPages.{IsPageDamage};

use keeper::Keeper;
use prov_base::Bytes;
use std::alloc::Global;
use trace_rows::{PageFault, decode_page};
use trial_tables::{Damage, ReadFault, page};

/// The bytes of a page, and how many rows they are.
#[derive(Drop)]
pub(crate) struct OnePage {
    pub bytes: Bytes,
    pub count: u32,
}

/// The bytes of pages, how many rows each page has, and what is amiss of the page behind them, where that ended the gathering.
#[derive(Drop)]
pub(crate) struct Gathered {
    pub bytes: Vec<u8>,
    pub cuts: Vec<u32>,
    pub ended: Option<Damage>,
}

/// How many rows these bytes of the page with this number are.
fn count_rows(alloc: Global, number: u32, bytes: &[u8]) -> Result<u32, ReadFault>
    ensures { CountsRows number bytes.now result }
{
    match decode_page(alloc, bytes) {
        Ok(rows) => match u32::try_from(rows.as_slice().len()) {
            Ok(count) => Ok(count),
            Err(_) => Err(ReadFault::Memory),
        },
        Err(PageFault::BadRow(byte)) => Err(ReadFault::Damaged(Damage::RowAt {
            page: number,
            byte,
        })),
        Err(PageFault::Memory) => Err(ReadFault::Memory),
    }
}

/// The page with this number, whose bytes are rows.
fn next_page<K: Keeper>(
    alloc: Global,
    keeper: &mut K,
    trial: u32,
    number: u32,
) -> Result<OnePage, ReadFault>
    ensures finds { Tells (K.told keeper.old) (K.told keeper.new) (Answers (λ tables. IsOnePage (page_in tables trial number)) (λ tables. IsPageDamage number (page_in tables trial number)) result) }
    ensures kept { IfSome (K.told keeper.new) (AreKept (K.is_open keeper.new)) }
    ensures stops { Tells (K.told keeper.old) (K.told keeper.new) (λ _ _. LeavesAmong (K.may_leave keeper.old) (K.may_leave keeper.new)) }
    ensures batch { K.is_open keeper.new ≡ K.is_open keeper.old }
    ensures cause { Causes (has_failed result) (K.faults keeper.old) (K.faults keeper.new) }
{
    let bytes = match page(alloc, keeper, trial, number) {
        Ok(bytes) => bytes,
        Err(fault) => return Err(fault),
    };
    match count_rows(alloc, number, bytes.as_slice()) {
        Ok(count) => Ok(OnePage { bytes, count }),
        Err(fault) => Err(fault),
    }
}

impl Gathered {
    /// Puts a page behind the others. Out of memory may leave a part of it.
    fn add(&mut self, page: &OnePage) -> Result<(), ReadFault>
        ensures bytes { IfOk result (λ _. self.new.bytes.items ≡ self.old.bytes.items ++ page.now.bytes) }
        ensures cuts { IfOk result (λ _. self.new.cuts.items ≡ self.old.cuts.items ++ page.now.count ∷ []) }
        ensures ended { self.new.ended ≡ self.old.ended }
        ensures fault { IfErr result (λ fault. fault ≡ ReadFault.Memory) }
    {
        if self.bytes.extend_from_slice(page.bytes.as_slice()).is_err() {
            return Err(ReadFault::Memory);
        }
        if self.cuts.push(page.count).is_err() {
            return Err(ReadFault::Memory);
        }
        Ok(())
    }
}

/// The pages of a trial, up to the first that is amiss by itself.
pub(crate) fn gather<K: Keeper>(
    alloc: Global,
    keeper: &mut K,
    trial: u32,
    pages: u32,
) -> Result<Gathered, ReadFault>
    requires kept { IfSome (K.told keeper.old) (AreKept (K.is_open keeper.old)) }
    ensures finds { Tells (K.told keeper.old) (K.told keeper.new) (Answers (λ tables. IsGathered tables trial pages) (λ _ _. ⊥) result) }
    ensures kept { IfSome (K.told keeper.new) (AreKept (K.is_open keeper.new)) }
    ensures stops { Tells (K.told keeper.old) (K.told keeper.new) (λ _ _. LeavesAmong (K.may_leave keeper.old) (K.may_leave keeper.new)) }
    ensures batch { K.is_open keeper.new ≡ K.is_open keeper.old }
    ensures cause { Causes (has_failed result) (K.faults keeper.old) (K.faults keeper.new) }
{
    let mut gathered = Gathered {
        bytes: Vec::new(alloc),
        cuts: Vec::new(alloc),
        ended: None,
    };
    for number in 0..pages {
        match next_page(alloc, keeper, trial, number) {
            Ok(page) => {
                if let Err(fault) = gathered.add(&page) {
                    return Err(fault);
                }
            }
            Err(ReadFault::Damaged(damage)) => {
                gathered.ended = Some(damage);
                return Ok(gathered);
            }
            Err(ReadFault::Keeper) => return Err(ReadFault::Keeper),
            Err(ReadFault::Memory) => return Err(ReadFault::Memory),
        }
    }
    Ok(gathered)
}
