// What objects hold: items, entries, attributes, and what is known of a file.
ghost use Rattle.std.specs.Prelude.{◌≡◌, ◌<◌, ◌+◌, ◌++◌, drop, slice_get, IfOk, OnOk, string_bytes};
ghost use Rattle.graph_texts.specs.Seen.{Draws, page_seen};
ghost use Rattle.graph_texts.specs.Steps.{comma, step_attributes, step_entries, step_items, step_object};
ghost use Rattle.py_model.specs.Store.{order_of};
ghost use Rattle.py_value.specs.Values.{AreNamed};

use crate::names::Names;
use crate::page::Page;
use crate::pending::{Next, Pending};
use crate::reads::Reads;
use crate::words::{class_text, file_text};
use prov_base::Memory;
use py_value::Kind;
use std::alloc::Global;

impl Page {
    // A comma, but before the first.
    fn push_comma(&mut self, first: bool) -> Result<(), Memory>
        ensures drawn { OnOk result (string_bytes self.new.text ≡ string_bytes self.old.text ++ comma first) }
        ensures things { self.new.things ≡ self.old.things }
    {
        if !first {
            self.text.push_str(", ")?;
        }
        Ok(())
    }

    /// What an object holds, behind its number.
    pub fn open_object<R: Reads>(
        &mut self,
        alloc: Global,
        names: &Names,
        reads: &R,
        o: u32,
    ) -> Result<Next, Memory>
        requires named { AreNamed (R.values reads.now) self.old.things.keys }
        ensures { IfOk result (λ next. Draws (R.values reads.now) (R.store reads.now) self.new next
            (step_object names.now (R.store reads.now) o (slice_get (R.store reads.now).kinds o) (page_seen (R.values reads.now) self.old))) }
    {
        match reads.kind(o) {
            None => {
                self.text.push_str("?")?;
                Ok(Next::Nothing)
            }
            Some(Kind::List) => {
                self.text.push_str("[")?;
                Ok(Next::One(Pending::Items(o, reads.length(o), 0)))
            }
            Some(Kind::Dict) => {
                self.text.push_str("{")?;
                Ok(Next::One(Pending::Entries(o, true, 0)))
            }
            Some(Kind::Instance(of)) => {
                self.text.push_str(class_text(names, of))?;
                self.text.push_str("(")?;
                Ok(Next::One(Pending::Attributes(o, true, 0)))
            }
            Some(Kind::File(path, mode)) => {
                let words = file_text(
                    alloc,
                    reads.text_of(path),
                    mode,
                    reads.offset(o),
                    reads.closed(o),
                )?;
                self.text.push_str(words.as_str())?;
                Ok(Next::Nothing)
            }
        }
    }

    /// The next item of a list, or its end.
    pub fn next_item<R: Reads>(
        &mut self,
        reads: &R,
        o: u32,
        left: u64,
        from: u64,
    ) -> Result<Next, Memory>
        requires named { AreNamed (R.values reads.now) self.old.things.keys }
        requires few { left + from < 18446744073709551616 }
        ensures { IfOk result (λ next. Draws (R.values reads.now) (R.store reads.now) self.new next (step_items (R.store reads.now) left o from (page_seen (R.values reads.now) self.old))) }
    {
        if left == 0 {
            self.text.push_str("]")?;
            return Ok(Next::Nothing);
        }
        match reads.item(o, from) {
            None => {
                self.text.push_str("]")?;
                Ok(Next::Nothing)
            }
            Some(v) => {
                self.push_comma(from == 0)?;
                Ok(Next::Two(Pending::Items(o, left - 1, from + 1), v))
            }
        }
    }

    /// The next entry of a dictionary, or its end. A key without an entry is passed over.
    pub fn next_entry<R: Reads>(
        &mut self,
        reads: &R,
        o: u32,
        first: bool,
        from: u64,
    ) -> Result<Next, Memory>
        requires named { AreNamed (R.values reads.now) self.old.things.keys }
        ensures { IfOk result (λ next. Draws (R.values reads.now) (R.store reads.now) self.new next
            (step_entries (R.store reads.now) o first (drop from (order_of (R.store reads.now) o)) (page_seen (R.values reads.now) self.old))) }
    {
        if from >= reads.key_count(o) {
            self.text.push_str("}")?;
            return Ok(Next::Nothing);
        }
        let key = reads.key(o, from);
        match reads.entry(o, key)? {
            None => Ok(Next::One(Pending::Entries(o, first, from + 1))),
            Some(v) => {
                self.push_comma(first)?;
                Ok(Next::Entry(
                    Pending::Entries(o, false, from + 1),
                    v,
                    Pending::Colon,
                    Pending::Value(key),
                ))
            }
        }
    }

    /// The next attribute of an instance, or its end. A key without an entry is passed over.
    pub fn next_attribute<R: Reads>(
        &mut self,
        reads: &R,
        o: u32,
        first: bool,
        from: u64,
    ) -> Result<Next, Memory>
        requires named { AreNamed (R.values reads.now) self.old.things.keys }
        ensures { IfOk result (λ next. Draws (R.values reads.now) (R.store reads.now) self.new next
            (step_attributes (R.store reads.now) o first (drop from (order_of (R.store reads.now) o)) (page_seen (R.values reads.now) self.old))) }
    {
        if from >= reads.key_count(o) {
            self.text.push_str(")")?;
            return Ok(Next::Nothing);
        }
        let key = reads.key(o, from);
        match reads.entry(o, key)? {
            None => Ok(Next::One(Pending::Attributes(o, first, from + 1))),
            Some(v) => {
                self.push_comma(first)?;
                Ok(Next::Entry(
                    Pending::Attributes(o, false, from + 1),
                    v,
                    Pending::Equals,
                    Pending::Name(key),
                ))
            }
        }
    }
}
