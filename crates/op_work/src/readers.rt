// The texts and tuples that values name.
ghost use Rattle.std.specs.Prelude.{◌≡◌, ◌<◌, length, slice_get, Some};
ghost use Rattle.py_value.specs.Values.{AreNamed, AreInterned};

use crate::Work;
use py_value::{Value, Values};

impl Work {
    /// The text with a number.
    pub fn text_of(&self, id: u32) -> &str
        requires { id < length self.now.values.texts }
        ensures { slice_get self.now.values.texts id ≡ Some result.now }
    {
        self.values.text_of(id)
    }

    /// The values of the tuple with a number.
    pub fn tuple_of(&self, id: u32) -> &[Value]
        requires { id < length self.now.values.tuples }
        ensures items { slice_get self.now.values.tuples id ≡ Some result.now }
        ensures named { AreNamed self.now.values result.now }
    {
        self.values.tuple_of(id)
    }

    /// The texts and tuples that the numbers name.
    pub fn values(&self) -> &Values
        ensures values { result.now ≡ self.now.values }
        ensures interned { AreInterned self.now.values }
    {
        &self.values
    }
}
