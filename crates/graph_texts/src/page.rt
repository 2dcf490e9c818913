// The text so far, with the things that have a number.
ghost use Rattle.std.specs.Prelude.{◌≡◌, ◌+◌, ◌++◌, not, IfOk, OnOk, string_bytes};
ghost use Rattle.std.specs.List.{list_any, position_or_len};
ghost use Rattle.indexmap.specs.IndexSet.{insert_key};
ghost use Rattle.graph_texts.specs.Seen.{number_words};
ghost use Rattle.py_value.specs.contracts.value.ValuePartialEq.TheImpl.{ghosts as values_eq};

use crate::words::number_text;
use indexmap::IndexSet;
use prov_base::Memory;
use py_value::Value;
use std::alloc::Global;

/// What was drawn so far: the text, and the objects, tuples and long texts that have a number, in the order of their first visit.
#[derive(Drop)]
pub(crate) struct Page {
    pub text: String,
    pub things: IndexSet<Value>,
}

impl Page {
    /// The number of a thing, counted from 1, and whether it is new. It fails where memory runs out, or numbers do.
    fn number(&mut self, thing: Value) -> Result<(u64, bool), Memory>
        ensures number { IfOk result (λ r. r.0 ≡ position_or_len (values_eq.eq thing) self.old.things.keys + 1) }
        ensures fresh { IfOk result (λ r. r.1 ≡ not (list_any (values_eq.eq thing) self.old.things.keys)) }
        ensures things { OnOk result (self.new.things.keys ≡ insert_key values_eq.eq self.old.things.keys thing) }
        ensures text { self.new.text ≡ self.old.text }
    {
        let (index, fresh) = self.things.insert_full(thing)?;
        let Some(number) = (index as u64).checked_add(1) else {
            return Err(Memory);
        };
        Ok((number, fresh))
    }

    /// The number of a thing is written, with `=` behind it where it is new. Answers whether it is new.
    pub fn begin(&mut self, alloc: Global, thing: Value) -> Result<bool, Memory>
        ensures fresh { IfOk result (λ fresh. fresh ≡ not (list_any (values_eq.eq thing) self.old.things.keys)) }
        ensures things { OnOk result (self.new.things.keys ≡ insert_key values_eq.eq self.old.things.keys thing) }
        ensures text { IfOk result (λ fresh. string_bytes self.new.text ≡ string_bytes self.old.text ++ number_words (position_or_len (values_eq.eq thing) self.old.things.keys + 1) fresh) }
    {
        let (number, fresh) = self.number(thing)?;
        let words = number_text(alloc, number, fresh)?;
        self.text.push_str(words.as_str())?;
        Ok(fresh)
    }
}
