// Tuples: as values, which are numbered, and as keys.
ghost use Rattle.std.specs.Prelude.{◌≡◌, ◌<◌, length, IfOk};
ghost use Rattle.graph_texts.specs.Seen.{Draws, page_seen, parts_from};
ghost use Rattle.graph_texts.specs.Steps.{step_key, step_keys, step_parts, step_tuple};
ghost use Rattle.py_value.specs.Contents.{contents, parts_by, tuple};
ghost use Rattle.py_value.specs.Values.{AreInterned, AreNamed};

use crate::page::Page;
use crate::pending::{Next, Pending};
use crate::reads::Reads;
use prov_base::Memory;

impl Page {
    /// The parts of a tuple, behind its number.
    pub fn open_tuple<R: Reads>(&mut self, reads: &R, id: u32) -> Result<Next, Memory>
        requires interned { AreInterned (R.values reads.now) }
        requires named { AreNamed (R.values reads.now) self.old.things.keys }
        requires there { id < length (R.values reads.now).tuples }
        ensures { IfOk result (λ next. Draws (R.values reads.now) (R.store reads.now) self.new next
            (step_tuple (parts_by (contents (R.values reads.now)) (parts_from (R.values reads.now) id 0)) (page_seen (R.values reads.now) self.old))) }
    {
        match reads.tuple_of(id) {
            [] => {
                self.text.push_str("()")?;
                Ok(Next::Nothing)
            }
            [part] => {
                self.text.push_str("(")?;
                Ok(Next::Two(Pending::OnlyEnd, *part))
            }
            [part, ..] => {
                self.text.push_str("(")?;
                Ok(Next::Two(Pending::Parts(id, 1), *part))
            }
        }
    }

    /// The next part of a tuple, or its end.
    pub fn next_part<R: Reads>(&mut self, reads: &R, id: u32, from: u64) -> Result<Next, Memory>
        requires interned { AreInterned (R.values reads.now) }
        requires named { AreNamed (R.values reads.now) self.old.things.keys }
        requires there { id < length (R.values reads.now).tuples }
        ensures { IfOk result (λ next. Draws (R.values reads.now) (R.store reads.now) self.new next
            (step_parts (parts_by (contents (R.values reads.now)) (parts_from (R.values reads.now) id from)) (page_seen (R.values reads.now) self.old))) }
    {
        let parts = reads.tuple_of(id);
        if from >= parts.len() as u64 {
            self.text.push_str(")")?;
            return Ok(Next::Nothing);
        }
        self.text.push_str(", ")?;
        Ok(Next::Two(Pending::Parts(id, from + 1), parts[from as usize]))
    }

    /// A tuple of a key.
    pub fn open_key_tuple<R: Reads>(&mut self, reads: &R, id: u32) -> Result<Next, Memory>
        requires interned { AreInterned (R.values reads.now) }
        requires named { AreNamed (R.values reads.now) self.old.things.keys }
        requires there { id < length (R.values reads.now).tuples }
        ensures { IfOk result (λ next. Draws (R.values reads.now) (R.store reads.now) self.new next
            (step_key (tuple (parts_by (contents (R.values reads.now)) (parts_from (R.values reads.now) id 0))) (page_seen (R.values reads.now) self.old))) }
    {
        match reads.tuple_of(id) {
            [] => {
                self.text.push_str("()")?;
                Ok(Next::Nothing)
            }
            [part] => {
                self.text.push_str("(")?;
                Ok(Next::TwoKeys(Pending::OnlyEnd, *part))
            }
            [part, ..] => {
                self.text.push_str("(")?;
                Ok(Next::TwoKeys(Pending::KeyParts(id, 1), *part))
            }
        }
    }

    /// The next part of a tuple of a key, or its end.
    pub fn next_key_part<R: Reads>(&mut self, reads: &R, id: u32, from: u64) -> Result<Next, Memory>
        requires interned { AreInterned (R.values reads.now) }
        requires named { AreNamed (R.values reads.now) self.old.things.keys }
        requires there { id < length (R.values reads.now).tuples }
        ensures { IfOk result (λ next. Draws (R.values reads.now) (R.store reads.now) self.new next
            (step_keys (parts_by (contents (R.values reads.now)) (parts_from (R.values reads.now) id from)) (page_seen (R.values reads.now) self.old))) }
    {
        let parts = reads.tuple_of(id);
        if from >= parts.len() as u64 {
            self.text.push_str(")")?;
            return Ok(Next::Nothing);
        }
        self.text.push_str(", ")?;
        Ok(Next::TwoKeys(Pending::KeyParts(id, from + 1), parts[from as usize]))
    }
}
