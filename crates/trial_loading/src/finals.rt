// The files that a run left, read.
ghost use Rattle.std.specs.Prelude.{◌≡◌, IfOk, IfSome};
ghost use Rattle.prov_outside.specs.Tells.{Tells};
ghost use Rattle.keeper.specs.Keeping.{AreKept, LeavesAmong};
ghost use Rattle.trial_tables.specs.Causes.{Causes};
ghost use Rattle.trial_tables.specs.Found.{Finds, items_of};
ghost use Rattle.trial_tables.specs.ReadFault.{has_failed};
ghost use Rattle.trial_loading.specs.Rest.{final_in, finals_in};

use capture::FileOut;
use keeper::Keeper;
use prov_base::{Memory, Name};
use std::alloc::Global;
use trial_keeping::FinalRecord;
use trial_tables::{ReadFault, content};

/// A copy of a name.
fn copied_name(alloc: Global, name: &str) -> Result<Name, Memory>
    ensures { IfOk result (λ copy. copy ≡ name.now) }
{
    Ok(Name::of(String::from_str(alloc, name)?))
}

/// A file that the run left, with its bytes.
fn read_final<K: Keeper>(
    alloc: Global,
    keeper: &mut K,
    file: &FinalRecord,
) -> Result<FileOut, ReadFault>
    ensures finds { Tells (K.told keeper.old) (K.told keeper.new) (Finds (λ tables. final_in tables file.now) result) }
    ensures kept { IfSome (K.told keeper.new) (AreKept (K.is_open keeper.new)) }
    ensures stops { Tells (K.told keeper.old) (K.told keeper.new) (λ _ _. LeavesAmong (K.may_leave keeper.old) (K.may_leave keeper.new)) }
    ensures batch { K.is_open keeper.new ≡ K.is_open keeper.old }
    ensures cause { Causes (has_failed result) (K.faults keeper.old) (K.faults keeper.new) }
{
    let bytes = match content(alloc, keeper, &file.digest) {
        Ok(bytes) => bytes,
        Err(fault) => return Err(fault),
    };
    match copied_name(alloc, file.path.as_str()) {
        Ok(path) => Ok(FileOut { path, bytes }),
        Err(_) => Err(ReadFault::Memory),
    }
}

/// The files that the run left, in their order.
pub(crate) fn read_final_files<K: Keeper>(
    alloc: Global,
    keeper: &mut K,
    files: &[FinalRecord],
) -> Result<Vec<FileOut>, ReadFault>
    requires kept { IfSome (K.told keeper.old) (AreKept (K.is_open keeper.old)) }
    ensures finds { Tells (K.told keeper.old) (K.told keeper.new) (Finds (λ tables. finals_in tables files.now) (items_of result)) }
    ensures kept { IfSome (K.told keeper.new) (AreKept (K.is_open keeper.new)) }
    ensures stops { Tells (K.told keeper.old) (K.told keeper.new) (λ _ _. LeavesAmong (K.may_leave keeper.old) (K.may_leave keeper.new)) }
    ensures batch { K.is_open keeper.new ≡ K.is_open keeper.old }
    ensures cause { Causes (has_failed result) (K.faults keeper.old) (K.faults keeper.new) }
{
    let mut read: Vec<FileOut> = Vec::new(alloc);
    for file in files {
        let one = match read_final(alloc, keeper, file) {
            Ok(one) => one,
            Err(fault) => return Err(fault),
        };
        if read.push(one).is_err() {
            return Err(ReadFault::Memory);
        }
    }
    Ok(read)
}
