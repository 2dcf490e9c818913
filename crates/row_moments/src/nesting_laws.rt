// Laws of the rows of moments.
ghost use Rattle.std.specs.Prelude.{◌≡◌, List, Some, reverse};
ghost use Rattle.row_moments.specs.NestedRows.{AreNested};
ghost use Rattle.row_checks.specs.NamedRows.{NamesInOrder};
ghost use Rattle.recorder.specs.MomentRows.{rows as rows_of};
ghost use Rattle.py_model.specs.Going.{Open as OneOpen};
ghost use Rattle.py_model.specs.History.{open_after};
ghost use Rattle.py_model.specs.Moment.{Moment as OneMoment};

/// The law that in the rows of moments no text and no tuple stands twice, and that those which a row names stand before it.
pub fn rows_name_what_stands()
    ensures { (moments : List OneMoment) → NamesInOrder (rows_of moments) }
{}

/// The law that the rows of moments nest where the moments do.
pub fn rows_nest_as_moments()
    ensures { (moments : List OneMoment) (open_ones : List OneOpen) → open_after (reverse moments) ≡ Some open_ones → AreNested (rows_of moments) }
{}
