// That a trial has one list of rows, or one first damage.
ghost use Rattle.std.specs.Prelude.{◌≡◌, ℕ};
ghost use Rattle.keeper.specs.Tables.{TablesView};
ghost use Rattle.trial_tables.specs.declared.damage.Damage.{Damage as OneDamage};
ghost use Rattle.trial_loading.specs.declared.paged_rows.PagedRows.{PagedRows as Paged};
ghost use Rattle.trial_loading.specs.TrialPages.{AreRowsOf, IsRowDamage};

use trace_rows::pages_are_read_one_way;

/// The law that the pages of a trial are read as one list of rows, cut in one way, or have one first damage, and never both.
pub fn rows_are_read_one_way()
    ensures rows { (tables : TablesView) (trial pages statements : ℕ) (read other : Paged) → AreRowsOf tables trial pages statements read → AreRowsOf tables trial pages statements other → (read.rows ≡ other.rows) × (read.cuts.items ≡ other.cuts.items) }
    ensures never_both { (tables : TablesView) (trial pages statements : ℕ) (read : Paged) (damage : OneDamage) → AreRowsOf tables trial pages statements read → IsRowDamage tables trial pages statements damage → ⊥ }
    ensures damage { (tables : TablesView) (trial pages statements : ℕ) (damage other : OneDamage) → IsRowDamage tables trial pages statements damage → IsRowDamage tables trial pages statements other → damage ≡ other }
{
    pages_are_read_one_way();
}
