// What stands behind the script of a kept trial: its records and contents, and its rows.
ghost use Rattle.std.specs.Prelude.{◌≡◌, IfOk, IfSome};
ghost use Rattle.prov_outside.specs.Tells.{Tells};
ghost use Rattle.keeper.specs.Keeping.{AreKept, LeavesAmong};
ghost use Rattle.row_checks.specs.KeptRows.{AreKeptRows};
ghost use Rattle.trial_tables.specs.Causes.{Causes};
ghost use Rattle.trial_tables.specs.ReadFault.{has_failed};
ghost use Rattle.trial_loading.specs.Answers.{Answers};
ghost use Rattle.trial_loading.specs.Loading.{IsDamagedBehind};
ghost use Rattle.trial_loading.specs.Stages.{IsBehind, with_rows};

use crate::paged_rows::PagedRows;
use crate::reading::rows_of;
use crate::rest::{Rest, rest_of};
use keeper::{Head, Keeper};
use std::alloc::Global;
use trial_tables::ReadFault;

/// What stands behind the script of a trial.
#[derive(Drop)]
pub(crate) struct Behind {
    /// Its arguments, its capture, its output and its final files.
    pub(crate) rest: Rest,
    /// Its rows.
    pub(crate) paged: PagedRows,
}

/// What was read, with the rows where these were read too.
fn behind_of(rest: Rest, paged: Result<PagedRows, ReadFault>) -> Result<Behind, ReadFault>
    ensures { result ≡ with_rows rest paged }
{
    match paged {
        Ok(paged) => Ok(Behind { rest, paged }),
        Err(fault) => Err(fault),
    }
}

/// What stands behind a script that has so many statements: first the records and contents, and then the rows.
pub(crate) fn read_behind<K: Keeper>(
    alloc: Global,
    keeper: &mut K,
    number: u32,
    head: &Head,
    statements: u32,
) -> Result<Behind, ReadFault>
    ensures finds { Tells (K.told keeper.old) (K.told keeper.new) (Answers (λ tables. IsBehind tables number head.now statements) (λ tables. IsDamagedBehind tables number head.now statements) result) }
    ensures stand { IfOk result (λ behind. AreKeptRows statements behind.paged.rows) }
    ensures kept { IfSome (K.told keeper.new) (AreKept (K.is_open keeper.new)) }
    ensures stops { Tells (K.told keeper.old) (K.told keeper.new) (λ _ _. LeavesAmong (K.may_leave keeper.old) (K.may_leave keeper.new)) }
    ensures batch { K.is_open keeper.new ≡ K.is_open keeper.old }
    ensures cause { Causes (has_failed result) (K.faults keeper.old) (K.faults keeper.new) }
{
    let rest = match rest_of(alloc, keeper, head) {
        Ok(rest) => rest,
        Err(fault) => return Err(fault),
    };
    let paged = rows_of(alloc, keeper, number, head.pages, statements);
    behind_of(rest, paged)
}
