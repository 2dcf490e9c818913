// Values whose texts and tuples have numbers, with a count of the numbers given: so that a row may name any, and one that was not
// given is refused.
ghost use Rattle.std.specs.Prelude.{◌≡◌, ◌≤◌, ◌<◌, length, IsTrue};
ghost use Rattle.py_value.specs.Values.{IsNamed, AreNamed};

use prov_base::Memory;
use py_value::{KeyFault, Value, Values};
use std::alloc::Global;

/// Values, and how many texts and tuples of them were named by rows.
#[derive(Drop)]
pub struct Names {
    values: Values,
    texts: u32,
    tuples: u32,
    ghost texts_within: { texts ≤ length values.texts },
    ghost tuples_within: { tuples ≤ length values.tuples },
}

impl Names {
    pub fn new(alloc: Global) -> Result<Names, Memory> {
        Ok(Names {
            values: Values::new(alloc)?,
            texts: 0,
            tuples: 0,
        })
    }

    /// The number of a text.
    pub fn text(&mut self, alloc: Global, s: &str) -> Result<u32, Memory> {
        let number = self.values.text(alloc, s)?;
        self.texts = self.texts.max(number.saturating_add(1));
        Ok(number)
    }

    /// The text of a number that was given.
    pub fn text_of(&self, id: u32) -> Option<&str> {
        if id < self.texts {
            Some(self.values.text_of(id))
        } else {
            None
        }
    }

    /// The tuple of a number that was given.
    pub fn tuple_of(&self, id: u32) -> Option<&[Value]> {
        if id < self.tuples {
            Some(self.values.tuple_of(id))
        } else {
            None
        }
    }

    fn is_named(&self, value: Value) -> bool
        ensures { IsTrue result → IsNamed self.now.values value }
    {
        match value {
            Value::Text(id) => id < self.texts,
            Value::Tuple(id) => id < self.tuples,
            _ => true,
        }
    }

    fn are_named(&self, items: &[Value]) -> bool
        ensures { IsTrue result → AreNamed self.now.values items.now }
    {
        for item in items {
            if !self.is_named(*item) {
                return false;
            }
        }
        true
    }

    /// The number of a tuple of values, none where a number in them was not given.
    pub fn tuple(&mut self, alloc: Global, items: &[Value]) -> Result<Option<u32>, Memory> {
        let are_named = self.are_named(items);
        if !are_named {
            return Ok(None);
        }
        let number = self.values.tuple(alloc, items)?;
        self.tuples = self.tuples.max(number.saturating_add(1));
        Ok(Some(number))
    }

    /// The key that a value is, none where its number was not given.
    pub fn key(&mut self, alloc: Global, value: Value) -> Option<Result<Value, KeyFault>> {
        let is_named = self.is_named(value);
        if !is_named {
            return None;
        }
        match self.values.key_of(alloc, value) {
            Ok(key) => {
                if let Value::Tuple(number) = key.value {
                    self.tuples = self.tuples.max(number.saturating_add(1));
                }
                Some(Ok(key.value))
            }
            Err(fault) => Some(Err(fault)),
        }
    }

    /// So many tuples inside one another, each of the next one twice, and the value in the innermost; none where its number was
    /// not given.
    pub fn nest(
        &mut self,
        alloc: Global,
        inner: Value,
        levels: u32,
    ) -> Result<Option<Value>, Memory> {
        let mut value = inner;
        for _ in 0..levels {
            match self.tuple(alloc, &[value, value])? {
                Some(around) => value = Value::Tuple(around),
                None => return Ok(None),
            }
        }
        Ok(Some(value))
    }
}
