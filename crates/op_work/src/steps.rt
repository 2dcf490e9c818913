// Items that are looked at, characters that are counted, what objects and places are, and texts that are made.
ghost use Rattle.std.specs.Prelude.{◌≡◌, Ok, Some, IfOk, IfErr, slice_get, map};
ghost use Rattle.object_store.specs.Store.{kinds, name_at};
ghost use Rattle.object_store.specs.Named.{IsNamedStore};
ghost use Rattle.op_work.specs.Exceptions.{class_number};
ghost use Rattle.op_work.specs.Work.{Comes, Faults, is_any, as_is, seen_kind, seen_name, IsNamedName, Extends};
ghost use Rattle.op_work.specs.declared.stop.Stop.TheVariants.{Memory as NoMemory};
ghost use Rattle.py_model.specs.Effect.{parts_of};
ghost use Rattle.py_model.specs.Plan.{Plan, looks, counts, kind_of, name_of};
ghost use Rattle.py_value.specs.Contents.{Contents, contents, text as text_contents, tuple as tuple_contents};
ghost use Rattle.py_value.specs.Values.{IsNamed, AreNamed, AreInterned};
ghost use Rattle.py_value.specs.Named.{IsNamedKind};

use crate::{Exception, Stop, Work, sayings_stay};
use object_store::named_stays;
use prov_base::{Memory, Pos};
use py_value::{Kind, Value, tuples_are_their_parts};
use std::alloc::Global;

impl Work {
    /// So many items of tuples and ranges are looked at.
    pub fn look(&mut self, items: u64) -> Result<(), Stop>
        ensures { Comes is_any as_is (λ table (go : Unit {0} → Plan). looks items (go tt)) self.old self.new result }
    {
        self.note_looks(items)
    }

    /// So many characters are counted.
    pub fn count(&mut self, characters: u64) -> Result<(), Stop>
        ensures { Comes is_any as_is (λ table (go : Unit {0} → Plan). counts characters (go tt)) self.old self.new result }
    {
        self.note_characters(characters)
    }

    /// What an object is.
    pub fn kind(&self, o: u32) -> Option<Kind>
        ensures { Comes IsNamedKind seen_kind (λ table. kind_of o) self.now self.now (Ok result) }
    {
        self.kind_there(o)
    }

    /// What an object is, as the store has it, and that all that stands there is named.
    pub fn kind_there(&self, o: u32) -> Option<Kind>
        ensures kind { result ≡ slice_get (kinds self.now.store) o }
        ensures named { IsNamedStore self.now.values self.now.store }
    {
        if o >= self.store.next() {
            return None;
        }
        Some(self.store.kind(o))
    }

    /// The noted name of the function or class at a place, by the number of its text.
    pub fn name(&self, place: Pos) -> Option<u32>
        ensures { Comes IsNamedName seen_name (λ table. name_of place) self.now self.now (Ok result) }
    {
        self.name_there(place)
    }

    /// The noted name of a place, as the store has it, and that all that stands there is named.
    pub fn name_there(&self, place: Pos) -> Option<u32>
        ensures name { result ≡ name_at self.now.store place }
        ensures named { IsNamedStore self.now.values self.now.store }
    {
        self.store.name_at(place)
    }

    /// The text with these bytes.
    pub fn text(&mut self, alloc: Global, words: &str) -> Result<Value, Stop>
        ensures comes { Comes IsNamed contents (λ table (go : Contents → Plan). go (text_contents words.now)) self.old self.new result }
        ensures memory { IfErr result (λ stop. stop ≡ NoMemory) }
    {
        let number = self.number(alloc, words)?;
        Ok(Value::Text(number))
    }

    /// The number of the text with these bytes. Nothing but the texts changes.
    pub fn number(&mut self, alloc: Global, words: &str) -> Result<u32, Memory>
        ensures name { IfOk result (λ id. slice_get self.new.values.texts id ≡ Some words.now) }
        ensures same { self.new ≡ record self.old { values = self.new.values } }
        ensures extends { Extends self.old.values self.new.values }
    {
        named_stays();
        sayings_stay();
        let number = self.values.text(alloc, words)?;
        Ok(number)
    }

    /// The tuple of these values.
    pub fn tuple(&mut self, alloc: Global, items: &[Value]) -> Result<Value, Stop>
        requires { AreNamed self.old.values items.now }
        ensures { Comes IsNamed contents (λ table (go : Contents → Plan). go (tuple_contents (parts_of (map (contents table) items.now)))) self.old self.new result }
    {
        tuples_are_their_parts();
        let number = self.tuple_number(alloc, items)?;
        Ok(Value::Tuple(number))
    }

    // The number of the tuple of these values.
    pub(crate) fn tuple_number(&mut self, alloc: Global, items: &[Value]) -> Result<u32, Memory>
        requires { AreNamed self.old.values items.now }
        ensures name { IfOk result (λ id. slice_get self.new.values.tuples id ≡ Some items.now) }
        ensures same { self.new ≡ record self.old { values = self.new.values } }
        ensures extends { Extends self.old.values self.new.values }
    {
        named_stays();
        sayings_stay();
        let number = self.values.tuple(alloc, items)?;
        Ok(number)
    }

    /// The exception of a class of the language with a text.
    pub fn fault(&mut self, alloc: Global, class: Exception, words: &str) -> Stop
        ensures { Faults (class_number class) words.now self.old self.new result }
    {
        match self.text(alloc, words) {
            Ok(argument) => Stop::Raises(class.number(), argument),
            Err(stop) => stop,
        }
    }
}
