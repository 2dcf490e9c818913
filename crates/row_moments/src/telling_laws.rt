// The laws that moments are read out of their rows, each a function without a body that says it.
ghost use Rattle.std.specs.Prelude.{◌≡◌, ◌≤◌, List, Some, length, reverse};
ghost use Rattle.recorder.specs.MomentRows.{rows as rows_of};
ghost use Rattle.recorder.specs.Telling.{view_of};
ghost use Rattle.py_value.specs.Values.{AreInterned};
ghost use Rattle.py_model.specs.Going.{Open as OneOpen};
ghost use Rattle.py_model.specs.History.{open_after};
ghost use Rattle.py_model.specs.Moment.{Moment as OneMoment};
ghost use Rattle.row_moments.specs.Moments.{moments_in};

/// The law that the rows of moments that nest tell these moments, the latest first.
pub fn rows_tell_their_moments()
    ensures { (moments : List OneMoment) (open_ones : List OneOpen) → open_after (reverse moments) ≡ Some open_ones → length (rows_of moments) ≤ 4294967296
        → moments_in (rows_of moments) ≡ reverse moments }
{}

/// The same law for rows of any number whose texts and tuples are interned.
pub fn interned_rows_tell_their_moments()
    ensures { (moments : List OneMoment) (open_ones : List OneOpen) → open_after (reverse moments) ≡ Some open_ones → AreInterned (view_of (reverse (rows_of moments)))
        → moments_in (rows_of moments) ≡ reverse moments }
{}
