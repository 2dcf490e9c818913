// The counting of a device's faults. It stands between every answer of the loops and the caller, so that no fault is
// answered that was not counted.
ghost use Rattle.std.specs.Prelude.{◌≡◌};
ghost use Rattle.prov_outside.specs.Count.{Counts, as_trouble};

use prov_base::Failed;
use prov_outside::Trouble;

/// The answer of a device's call as it is. Where it is a fault, the count of faults rises by one, and stays at
/// 2^64 - 1 once it is there. Out of memory is no fault.
pub(crate) fn counted<T>(faults: &mut u64, answer: Result<T, Trouble>) -> Result<T, Trouble>
    ensures same { result ≡ answer }
    ensures cause { Counts faults.old faults.new answer }
{
    let is_fault = matches!(answer, Err(Trouble::Failed));
    *faults = faults.saturating_add(u64::from(is_fault));
    answer
}

/// The same for a device that takes no memory: every refusal is a fault.
pub(crate) fn counted_fault<T>(faults: &mut u64, answer: Result<T, Failed>) -> Result<T, Failed>
    ensures same { result ≡ answer }
    ensures cause { Counts faults.old faults.new (as_trouble answer) }
{
    *faults = faults.saturating_add(u64::from(answer.is_err()));
    answer
}
