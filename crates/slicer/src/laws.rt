// Laws of what is reached, each a function without a body that says it.
ghost use Rattle.std.specs.Prelude.{◌≡◌, ◌↔◌, ℕ, true};
ghost use Rattle.py_model.specs.Store.{RunStore};
ghost use Rattle.py_value.specs.Contents.{contents};
ghost use Rattle.py_value.specs.Values.{ValuesView, AreInterned};
ghost use Rattle.py_value.specs.declared.value.Value.{Value as OneValue};
ghost use Rattle.slice_law.specs.Reached.{IsReached};
ghost use Rattle.slice_things.specs.declared.forms.Forms.{Forms as OneForms};
ghost use Rattle.slice_things.specs.declared.things.Things.{Things as TheThings};
ghost use Rattle.slice_things.specs.Children.{children_of};
ghost use Rattle.slice_things.specs.Forms.{AreForms};
ghost use Rattle.slice_things.specs.Things.{HoldsStore, IsNormalRow};
ghost use Rattle.row_checks.specs.Keys.{is_key};
ghost use Rattle.row_checks.specs.NamedRows.{NamesRow};
ghost use Rattle.row_checks.specs.RowTests.{has_keys};
ghost use Rattle.trace_rows.specs.declared.row.Row.{Row as OneRow};
ghost use Rattle.slicer.specs.Walk.{Reaches};

/// The law that what is reached by the values that objects are known to hold is what is reached in the store.
pub fn known_values_reach_the_same()
    ensures { (view : ValuesView) (forms : OneForms) (things : TheThings) (store : RunStore) (v : OneValue) (p : ℕ) → AreForms view forms → HoldsStore view forms things store
        → IsReached store (contents view v) p ↔ Reaches view (children_of things) v p }
{}

/// The law that the keys of a row are normal and plain where they pass the test of kept rows.
pub fn kept_keys_are_normal()
    ensures { (view : ValuesView) (row : OneRow) → AreInterned view → NamesRow view row → has_keys (is_key view.tuples) row ≡ true → IsNormalRow view row }
{}
