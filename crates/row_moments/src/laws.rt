// Laws of the moments that rows tell, each a function without a body that says it.
ghost use Rattle.std.specs.Prelude.{◌≡◌, ◌≤◌, ◌++◌, ◌∷◌, [], ℕ, List, Some, length, reverse, slice_get};
ghost use Rattle.py_value.specs.Values.{ValuesView, AreInterned};
ghost use Rattle.row_checks.specs.KeptRows.{view_in};
ghost use Rattle.row_checks.specs.NamedRows.{NamesInOrder, NamesRow};
ghost use Rattle.row_moments.specs.InOrder.{StandInOrder};
ghost use Rattle.row_moments.specs.Moments.{told_with, moments_by};
ghost use Rattle.trace_rows.specs.declared.row.Row.{Row as OneRow};

/// The law of one row more: its moment, if it tells one, stands in front of those of the rows before it.
pub fn one_row_tells_one_moment()
    ensures { (view : ValuesView) (rows : List OneRow) (row : OneRow)
        → moments_by view (reverse (rows ++ row ∷ [])) ≡ told_with view row (moments_by view (reverse rows)) }
{}

/// The law that the texts and tuples of rows in order stand once, each behind its parts; that they are interned where the rows are at most 2^32;
/// and that all rows name what is there.
pub fn rows_in_order_are_interned()
    ensures order { (rows : List OneRow) → NamesInOrder rows → StandInOrder (view_in rows) }
    ensures interned { (rows : List OneRow) → NamesInOrder rows → length rows ≤ 4294967296 → AreInterned (view_in rows) }
    ensures named { (rows : List OneRow) → NamesInOrder rows → (i : ℕ) (row : OneRow) → slice_get rows i ≡ Some row → NamesRow (view_in rows) row }
{}
