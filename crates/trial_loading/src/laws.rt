// That a number has one loaded trial, or one first damage.
ghost use Rattle.std.specs.Prelude.{◌≡◌, ℕ};
ghost use Rattle.keeper.specs.Tables.{TablesView};
ghost use Rattle.trial_tables.specs.declared.damage.Damage.{Damage as OneDamage};
ghost use Rattle.trial_loading.specs.declared.trial.Trial.{Trial as OneTrial};
ghost use Rattle.trial_loading.specs.Loading.{IsDamaged, IsLoaded};
ghost use Rattle.trial_loading.specs.OneTrial.{AreSame};

use crate::page_laws::rows_are_read_one_way;
use py_parser::one_reading;
use trial_keeping::records_are_read_one_way;

/// The law of loading: the trial with a number is loaded in one way, or has one first damage, and never both.
pub fn trials_are_loaded_one_way()
    ensures trial { (tables : TablesView) (number : ℕ) (trial other : OneTrial) → IsLoaded tables number trial → IsLoaded tables number other → AreSame trial other }
    ensures damage { (tables : TablesView) (number : ℕ) (damage other : OneDamage) → IsDamaged tables number damage → IsDamaged tables number other → damage ≡ other }
    ensures never_both { (tables : TablesView) (number : ℕ) (trial : OneTrial) (damage : OneDamage) → IsLoaded tables number trial → IsDamaged tables number damage → ⊥ }
{
    records_are_read_one_way();
    one_reading();
    rows_are_read_one_way();
}
