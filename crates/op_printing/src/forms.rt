// What lies inside a value that is printed.
ghost use Rattle.std.specs.Prelude.{◌≡◌, ◌∷◌, OnOk};
ghost use Rattle.py_model.specs.Printing.{is_inside as list_is_inside};

use py_value::Value;
use std::alloc::AllocFailed;

/// What lies inside a value.
#[derive(Clone, Copy)]
pub(crate) enum Rest {
    /// Nothing more.
    Whole,
    /// The items of a list.
    Items(u32),
    /// The entries of a dictionary.
    Entries(u32),
    /// The parts of a tuple, in brackets.
    Tuple(u32),
    /// The parts of a tuple, without brackets.
    Bare(u32),
    /// The only part of a tuple, as a literal or not.
    Only(bool, u32),
}

/// What a value comes to.
#[derive(Clone, Copy)]
pub(crate) enum Step {
    /// Whether a `)` closes it, and what lies inside it.
    Rests(bool, Rest),
    /// Whether a `)` closes it, and the value that is printed at the same level, as a literal or not.
    Again(bool, bool, Value),
}

/// What a value comes to at its level, with so many `)` behind it.
#[derive(Clone, Copy)]
pub(crate) struct Form {
    pub closers: u64,
    pub rest: Rest,
}

// Whether an object is one of those that a walk is inside of.
pub(crate) fn is_inside(o: u32, inside: &[u32]) -> bool
    ensures { result ≡ list_is_inside o inside.now }
{
    for p in inside {
        if o == *p {
            return true;
        }
    }
    false
}
