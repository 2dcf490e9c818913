// Laws of the definitions, each a function without a body that says it.
ghost use Rattle.std.specs.Prelude.{◌≡◌, ◌↔◌, ℕ, List, true, false, is_none};
ghost use Rattle.row_checks.specs.KeptRows.{AreKeptRows, IsFirstUnkept};
ghost use Rattle.row_checks.specs.Keys.{is_key};
ghost use Rattle.row_checks.specs.NamedRows.{NamesInOrder};
ghost use Rattle.py_value.specs.Contents.{contents};
ghost use Rattle.py_value.specs.KeyOf.{fault_within, normal};
ghost use Rattle.py_value.specs.Values.{ValuesView, AreInterned, IsNamed};
ghost use Rattle.py_value.specs.declared.value.Value.{Value as OneValue};
ghost use Rattle.trace_rows.specs.declared.row.Row.{Row as OneRow};

/// The law that rows are kept, or one row is the first that is not.
pub fn one_row_is_first_unkept()
    ensures kept { (statements : ℕ) (rows : List OneRow) (i : ℕ) → AreKeptRows statements rows → IsFirstUnkept statements rows i → ⊥ }
    ensures first { (statements : ℕ) (rows : List OneRow) (i j : ℕ) → IsFirstUnkept statements rows i → IsFirstUnkept statements rows j → i ≡ j }
{}

/// The law that the keys of rows are the keys of a run: those of which nothing is refused. Without truth values they are the normal ones.
pub fn keys_of_rows_are_keys()
    ensures keys { (view : ValuesView) (v : OneValue) → AreInterned view → IsNamed view v → is_key view.tuples true v ≡ is_none (fault_within 100 view v) }
    ensures normal { (view : ValuesView) (v : OneValue) → AreInterned view → IsNamed view v
        → (is_key view.tuples false v ≡ true) ↔ ((is_key view.tuples true v ≡ true) × (normal (contents view v) ≡ contents view v)) }
{}

/// The law that in kept rows no text and no tuple stands twice, and that those which a row names stand before it.
pub fn kept_rows_name_in_order()
    ensures { (statements : ℕ) (rows : List OneRow) → AreKeptRows statements rows → NamesInOrder rows }
{}
