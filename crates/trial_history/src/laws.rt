// The law of restoring, as a function without a body that says it.
ghost use Rattle.std.specs.Prelude.{◌≡◌, ◌++◌, ℕ, List, Option, Some, Ok, Err};
ghost use Rattle.prov_outside.specs.Folder.{Files};
ghost use Rattle.keeper.specs.Keeping.{KeeperView};
ghost use Rattle.keeper.specs.Tables.{with_current};
ghost use Rattle.trial_tables.specs.declared.damage.Damage.{Damage as OneDamage};
ghost use Rattle.trial_keeping.specs.declared.fault.TrialFault.TheVariants.{NoTrial, Damaged};
ghost use Rattle.trial_loading.specs.Loading.{IsLoaded};
ghost use Rattle.trial_loading.specs.declared.trial.Trial.{Trial as OneTrial};
ghost use Rattle.trial_history.specs.declared.fault.RestoreFault.TheVariants.{Trial};
ghost use Rattle.trial_history.specs.Current.{settled};
ghost use Rattle.trial_history.specs.OneRestoring.{LeaveTheSame, RestoringFrom};
ghost use Rattle.trial_history.specs.Puts.{restored_lines, with_files};
ghost use Rattle.trial_history.specs.Restoring.{files_of};

use trial_loading::trials_are_loaded_one_way;

/// The law of restoring: from one state of a store and a folder, a trial is restored in one way, or is not there, or has one first damage, and never two of these.
pub fn trials_are_restored_one_way()
    ensures same { (number : ℕ) (before : KeeperView) (was : Files) (told : List ℕ) (a b : RestoringFrom number before was told (Ok tt)) → LeaveTheSame a b }
    ensures damage { (number n m : ℕ) (before : KeeperView) (was : Files) (told : List ℕ) (damage other : OneDamage) → RestoringFrom number before was told (Err (Trial (Damaged n damage)))
        → RestoringFrom number before was told (Err (Trial (Damaged m other))) → damage ≡ other }
    ensures never_damaged { (number n : ℕ) (before : KeeperView) (was : Files) (told : List ℕ) (damage : OneDamage) → RestoringFrom number before was told (Ok tt)
        → RestoringFrom number before was told (Err (Trial (Damaged n damage))) → ⊥ }
    ensures never_absent { (number n : ℕ) (before : KeeperView) (was : Files) (told : List ℕ) → RestoringFrom number before was told (Ok tt) → RestoringFrom number before was told (Err (Trial (NoTrial n))) → ⊥ }
{
    trials_are_loaded_one_way();
}

/// What a trial that is restored leaves: its script stands at its path, and then each file that was found with bytes, by path, a later one over an earlier one, and all else is as before; each of
/// them is told; and the trial is the current one of its path.
pub fn restored_files_stand()
    ensures { (number : ℕ) (before : KeeperView) (was : Files) (told : List ℕ) (a : RestoringFrom number before was told (Ok tt)) → (trial : OneTrial) × IsLoaded before.seen number trial
        × ((path : List ℕ) → a.files path ≡ with_files (files_of trial) was path) × (a.text ≡ told ++ restored_lines (files_of trial))
        × (a.after ≡ settled (with_current trial.head.path number before.committed)) }
{}
