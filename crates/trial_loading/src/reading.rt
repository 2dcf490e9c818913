// All rows of a trial.
ghost use Rattle.std.specs.Prelude.{◌≡◌, IfOk, IfSome};
ghost use Rattle.prov_outside.specs.Tells.{Tells};
ghost use Rattle.keeper.specs.Keeping.{AreKept, LeavesAmong};
ghost use Rattle.row_checks.specs.KeptRows.{AreKeptRows};
ghost use Rattle.trial_tables.specs.Causes.{Causes};
ghost use Rattle.trial_tables.specs.ReadFault.{has_failed};
ghost use Rattle.trial_loading.specs.Answers.{Answers};
ghost use Rattle.trial_loading.specs.TrialPages.{AreRowsOf, IsRowDamage};

use crate::gathering::{Gathered, gather};
use crate::judging::judge;
use crate::paged_rows::PagedRows;
use keeper::Keeper;
use std::alloc::Global;
use trial_tables::ReadFault;

/// The rows of a trial that has so many pages, and whose script has so many statements. It is damaged as the first page or row is that may not
/// stand there.
pub fn rows_of<K: Keeper>(
    alloc: Global,
    keeper: &mut K,
    trial: u32,
    pages: u32,
    statements: u32,
) -> Result<PagedRows, ReadFault>
    requires kept { IfSome (K.told keeper.old) (AreKept (K.is_open keeper.old)) }
    ensures finds { Tells (K.told keeper.old) (K.told keeper.new) (Answers (λ tables. AreRowsOf tables trial pages statements) (λ tables. IsRowDamage tables trial pages statements) result) }
    ensures stand { IfOk result (λ read. AreKeptRows statements read.rows) }
    ensures kept { IfSome (K.told keeper.new) (AreKept (K.is_open keeper.new)) }
    ensures stops { Tells (K.told keeper.old) (K.told keeper.new) (λ _ _. LeavesAmong (K.may_leave keeper.old) (K.may_leave keeper.new)) }
    ensures batch { K.is_open keeper.new ≡ K.is_open keeper.old }
    ensures cause { Causes (has_failed result) (K.faults keeper.old) (K.faults keeper.new) }
{
    let Gathered { bytes, cuts, ended } = match gather(alloc, keeper, trial, pages) {
        Ok(gathered) => gathered,
        Err(fault) => return Err(fault),
    };
    let read = match judge(alloc, bytes.as_slice(), cuts, statements) {
        Ok(read) => read,
        Err(fault) => return Err(fault),
    };
    match ended {
        Some(damage) => Err(ReadFault::Damaged(damage)),
        None => Ok(read),
    }
}
