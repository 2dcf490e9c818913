// Values, each as its number or as its content.
ghost use Rattle.std.specs.Prelude.{◌≡◌, ◌<◌, length, slice_get, unwrap_or, IfOk};
ghost use Rattle.graph_texts.specs.Seen.{Draws, page_seen, parts_from};
ghost use Rattle.graph_texts.specs.Steps.{did, step_key, step_name, step_numbered, step_object, step_text, step_tuple, step_value};
ghost use Rattle.py_model.specs.Graph.{add};
ghost use Rattle.py_model.specs.Printing.{literal as literal_words};
ghost use Rattle.py_value.specs.Contents.{contents, object, parts_by, text, tuple};
ghost use Rattle.py_value.specs.Seen.{bytes_of};
ghost use Rattle.py_value.specs.Values.{AreInterned, AreNamed, IsNamed};

use crate::lengths::is_long;
use crate::names::Names;
use crate::page::Page;
use crate::pending::Next;
use crate::reads::Reads;
use crate::words::{key_words, plain_text};
use prov_base::Memory;
use py_value::{
    Value, equality_is_same, same_contents_same_value, tests_are_equality, tuples_are_their_parts,
};
use spelling::literal;
use std::alloc::Global;

impl Page {
    // A text of more than 64 characters.
    fn draw_long<R: Reads>(&mut self, alloc: Global, reads: &R, id: u32) -> Result<Next, Memory>
        requires interned { AreInterned (R.values reads.now) }
        requires named { AreNamed (R.values reads.now) self.old.things.keys }
        requires there { id < length (R.values reads.now).texts }
        ensures { IfOk result (λ next. Draws (R.values reads.now) (R.store reads.now) self.new next
            (step_numbered (text (bytes_of (R.values reads.now) id)) (λ e. did (add (literal_words (bytes_of (R.values reads.now) id)) e)) (page_seen (R.values reads.now) self.old))) }
    {
        equality_is_same();
        tests_are_equality();
        same_contents_same_value();
        if self.begin(alloc, Value::Text(id))? {
            self.text
                .push_str(literal(alloc, reads.text_of(id))?.as_str())?;
        }
        Ok(Next::Nothing)
    }

    // A text: a long one is numbered.
    fn draw_text<R: Reads>(&mut self, alloc: Global, reads: &R, id: u32) -> Result<Next, Memory>
        requires interned { AreInterned (R.values reads.now) }
        requires named { AreNamed (R.values reads.now) self.old.things.keys }
        requires there { id < length (R.values reads.now).texts }
        ensures { IfOk result (λ next. Draws (R.values reads.now) (R.store reads.now) self.new next (step_text (bytes_of (R.values reads.now) id) (page_seen (R.values reads.now) self.old))) }
    {
        let words = reads.text_of(id);
        if is_long(words) {
            return self.draw_long(alloc, reads, id);
        }
        self.text.push_str(literal(alloc, words)?.as_str())?;
        Ok(Next::Nothing)
    }

    // A tuple.
    fn draw_tuple<R: Reads>(&mut self, alloc: Global, reads: &R, id: u32) -> Result<Next, Memory>
        requires interned { AreInterned (R.values reads.now) }
        requires named { AreNamed (R.values reads.now) self.old.things.keys }
        requires there { id < length (R.values reads.now).tuples }
        ensures { IfOk result (λ next. Draws (R.values reads.now) (R.store reads.now) self.new next
            (step_numbered (tuple (parts_by (contents (R.values reads.now)) (parts_from (R.values reads.now) id 0)))
            (step_tuple (parts_by (contents (R.values reads.now)) (parts_from (R.values reads.now) id 0))) (page_seen (R.values reads.now) self.old))) }
    {
        equality_is_same();
        tests_are_equality();
        same_contents_same_value();
        tuples_are_their_parts();
        if self.begin(alloc, Value::Tuple(id))? {
            self.open_tuple(reads, id)
        } else {
            Ok(Next::Nothing)
        }
    }

    // An object.
    fn draw_object<R: Reads>(
        &mut self,
        alloc: Global,
        names: &Names,
        reads: &R,
        o: u32,
    ) -> Result<Next, Memory>
        requires interned { AreInterned (R.values reads.now) }
        requires named { AreNamed (R.values reads.now) self.old.things.keys }
        ensures { IfOk result (λ next. Draws (R.values reads.now) (R.store reads.now) self.new next
            (step_numbered (object o) (step_object names.now (R.store reads.now) o (slice_get (R.store reads.now).kinds o)) (page_seen (R.values reads.now) self.old))) }
    {
        equality_is_same();
        tests_are_equality();
        same_contents_same_value();
        if self.begin(alloc, Value::Object(o))? {
            self.open_object(alloc, names, reads, o)
        } else {
            Ok(Next::Nothing)
        }
    }

    /// A value: objects, tuples and long texts by their number, with their content at the first visit.
    pub fn draw_value<R: Reads>(
        &mut self,
        alloc: Global,
        names: &Names,
        reads: &R,
        v: Value,
    ) -> Result<Next, Memory>
        requires interned { AreInterned (R.values reads.now) }
        requires named { AreNamed (R.values reads.now) self.old.things.keys }
        requires value { IsNamed (R.values reads.now) v }
        ensures { IfOk result (λ next. Draws (R.values reads.now) (R.store reads.now) self.new next (step_value names.now (R.store reads.now) (contents (R.values reads.now) v) (page_seen (R.values reads.now) self.old))) }
    {
        tuples_are_their_parts();
        match v {
            Value::Text(id) => self.draw_text(alloc, reads, id),
            Value::Tuple(id) => self.draw_tuple(alloc, reads, id),
            Value::Object(o) => self.draw_object(alloc, names, reads, o),
            _ => {
                self.text.push_str(plain_text(alloc, names, v)?.as_str())?;
                Ok(Next::Nothing)
            }
        }
    }

    /// A key, as `repr` writes it.
    pub fn draw_key<R: Reads>(&mut self, alloc: Global, reads: &R, v: Value) -> Result<Next, Memory>
        requires interned { AreInterned (R.values reads.now) }
        requires named { AreNamed (R.values reads.now) self.old.things.keys }
        requires value { IsNamed (R.values reads.now) v }
        ensures { IfOk result (λ next. Draws (R.values reads.now) (R.store reads.now) self.new next (step_key (contents (R.values reads.now) v) (page_seen (R.values reads.now) self.old))) }
    {
        tuples_are_their_parts();
        match v {
            Value::Tuple(id) => self.open_key_tuple(reads, id),
            _ => {
                self.text.push_str(key_words(alloc, reads, v)?.as_str())?;
                Ok(Next::Nothing)
            }
        }
    }

    /// The name of an attribute: a text as it is, any other value as `repr` writes it.
    pub fn draw_name<R: Reads>(
        &mut self,
        alloc: Global,
        reads: &R,
        v: Value,
    ) -> Result<Next, Memory>
        requires interned { AreInterned (R.values reads.now) }
        requires named { AreNamed (R.values reads.now) self.old.things.keys }
        requires value { IsNamed (R.values reads.now) v }
        ensures { IfOk result (λ next. Draws (R.values reads.now) (R.store reads.now) self.new next (step_name (contents (R.values reads.now) v) (page_seen (R.values reads.now) self.old))) }
    {
        match v {
            Value::Text(id) => {
                self.text.push_str(reads.text_of(id))?;
                Ok(Next::Nothing)
            }
            _ => self.draw_key(alloc, reads, v),
        }
    }
}
