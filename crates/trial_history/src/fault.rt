// Why a trial is not restored.
use prov_base::Name;
use trial_keeping::TrialFault;

/// Why a trial is not restored.
#[derive(Drop, Debug)]
pub enum RestoreFault {
    /// The trial was not loaded, the keeper failed as it was to be made the current one, or memory ran out.
    Trial(TrialFault),
    /// The folder failed, and has counted that, as the file at this path was put.
    Folder(Name),
}
