// Refusals of the database as those of a keeper, and the counting of faults.
ghost use Rattle.std.specs.Prelude.{◌≡◌};
ghost use Rattle.keeper.specs.Count.{Counts};
ghost use Rattle.keeper.specs.Fault.{has_failed};

use keeper::KeepFault;
use sqlite::{Error, ErrorCode};

// Out of memory where the database names it, and a failure in all other cases.
pub(crate) fn fault_of(error: Error) -> KeepFault {
    match error {
        Error::SqliteFailure(ErrorCode::OutOfMemory) => KeepFault::Memory,
        _ => KeepFault::Failed,
    }
}

// The answer as it is. Where it is a failure, the count of faults rises by one, and stays at 2^64 - 1 once it is there.
pub(crate) fn counted<T>(faults: &mut u64, answer: Result<T, KeepFault>) -> Result<T, KeepFault>
    ensures same { result ≡ answer }
    ensures cause { Counts (has_failed answer) faults.old faults.new }
{
    let has_failed = matches!(answer, Err(KeepFault::Failed));
    *faults = faults.saturating_add(u64::from(has_failed));
    answer
}
