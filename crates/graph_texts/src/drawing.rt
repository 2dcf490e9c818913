// A drawing, task by task.
ghost use Rattle.std.specs.Prelude.{◌≡◌, ◌++◌, suc, length, string_bytes, IfOk, OnOk};
ghost use Rattle.graph_texts.specs.Seen.{Draws, IsReady, next_list, page_seen, pending_seen};
ghost use Rattle.graph_texts.specs.Steps.{step};
ghost use Rattle.graph_texts.specs.declared.pending.Next.TheVariants.{Nothing};
ghost use Rattle.py_model.specs.Graph.{names_in, object_drawn_to, value_drawn};
ghost use Rattle.py_tree.specs.Tree.{ScriptTree};
ghost use Rattle.py_value.specs.Contents.{contents};
ghost use Rattle.py_value.specs.Values.{AreInterned, AreNamed, IsNamed};

use crate::names::Names;
use crate::page::Page;
use crate::pending::{Next, Pending};
use crate::reads::Reads;
use prov_base::Memory;
use py_value::Value;
use std::alloc::Global;

// What a task leaves is put behind the tasks.
fn put_next(tasks: &mut Vec<Pending>, next: Next) -> Result<(), Memory>
    ensures { OnOk result (tasks.new.items ≡ tasks.old.items ++ next_list next) }
{
    match next {
        Next::Nothing => {}
        Next::One(task) => tasks.push(task)?,
        Next::Two(rest, part) => tasks.extend_from_slice(&[rest, Pending::Value(part)])?,
        Next::TwoKeys(rest, part) => tasks.extend_from_slice(&[rest, Pending::Key(part)])?,
        Next::Entry(rest, value, between, key) => {
            tasks.extend_from_slice(&[rest, Pending::Value(value), between, key])?
        }
    }
    Ok(())
}

impl Page {
    // A mark.
    fn draw_mark(&mut self, mark: &str) -> Result<Next, Memory>
        ensures drawn { OnOk result (string_bytes self.new.text ≡ string_bytes self.old.text ++ mark.now) }
        ensures things { self.new.things ≡ self.old.things }
        ensures next { IfOk result (λ next. next ≡ Nothing) }
    {
        self.text.push_str(mark)?;
        Ok(Next::Nothing)
    }

    // One task.
    fn draw<R: Reads>(
        &mut self,
        alloc: Global,
        names: &Names,
        reads: &R,
        task: Pending,
    ) -> Result<Next, Memory>
        requires interned { AreInterned (R.values reads.now) }
        requires named { AreNamed (R.values reads.now) self.old.things.keys }
        requires ready { IsReady (R.values reads.now) task }
        ensures { IfOk result (λ next. Draws (R.values reads.now) (R.store reads.now) self.new next
            (step names.now (R.store reads.now) (pending_seen (R.values reads.now) (R.store reads.now) task) (page_seen (R.values reads.now) self.old))) }
    {
        match task {
            Pending::Colon => self.draw_mark(": "),
            Pending::Equals => self.draw_mark("="),
            Pending::OnlyEnd => self.draw_mark(",)"),
            Pending::Value(v) => self.draw_value(alloc, names, reads, v),
            Pending::Key(v) => self.draw_key(alloc, reads, v),
            Pending::Name(v) => self.draw_name(alloc, reads, v),
            Pending::Parts(id, from) => self.next_part(reads, id, from),
            Pending::KeyParts(id, from) => self.next_key_part(reads, id, from),
            Pending::Items(o, left, from) => self.next_item(reads, o, left, from),
            Pending::Entries(o, first, from) => self.next_entry(reads, o, first, from),
            Pending::Attributes(o, first, from) => self.next_attribute(reads, o, first, from),
        }
    }

    /// A value with all that is reached from it.
    pub fn draw_all<R: Reads>(
        &mut self,
        alloc: Global,
        names: &Names,
        reads: &R,
        value: Value,
    ) -> Result<(), Memory>
        requires interned { AreInterned (R.values reads.now) }
        requires named { AreNamed (R.values reads.now) self.old.things.keys }
        requires value { IsNamed (R.values reads.now) value }
        ensures { OnOk result ((script : ScriptTree) → names.now ≡ names_in script.body → page_seen (R.values reads.now) self.new
            ≡ value_drawn script (R.store reads.now) (object_drawn_to script (R.store reads.now) (suc (length (R.store reads.now).kinds))) (contents (R.values reads.now) value) (page_seen (R.values reads.now) self.old)) }
    {
        let mut tasks = Vec::new(alloc);
        tasks.push(Pending::Value(value))?;
        while let Some(task) = tasks.pop() {
            let next = self.draw(alloc, names, reads, task)?;
            put_next(&mut tasks, next)?;
        }
        Ok(())
    }
}
