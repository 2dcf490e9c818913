// An operation comes to its end.
ghost use Rattle.std.specs.Prelude.{◌≡◌, ◌≤◌, ◌+◌, ◌++◌, length};
ghost use Rattle.op_state.specs.Held.{FinishesAll};
ghost use Rattle.op_state.specs.Paths.{with_numbers};
ghost use Rattle.op_work.specs.Work.{Extends, IsNamedResult, AreNamedSayings};
ghost use Rattle.py_model.specs.Told.{IsNamedAnswer};

use crate::completion::complete;
use crate::held::Held;
use crate::paths::add_all;
use crate::settling::settle;
use op_work::{Stop, Work};
use prov_base::Memory;
use py_model::{Answer, Deed};
use std::alloc::Global;

impl Held {
    /// The operation ends with what it came to. It is none where that costs more than is left.
    pub fn end(
        &mut self,
        alloc: Global,
        answer: Result<Answer, Stop>,
    ) -> Result<Option<Deed>, Memory>
        requires { IsNamedResult IsNamedAnswer self.old.work.values answer }
        ensures finishes { FinishesAll self.old self.new answer result }
        ensures extends { Extends self.old.work.values self.new.work.values }
    {
        let Some(answer) = settle(&mut self.work, alloc, answer)? else {
            return Ok(None);
        };
        if !self.work.has_its_file() {
            return Err(Memory);
        }
        self.output.reserve(self.work.printed().len())?;
        self.opened.reserve(self.work.opened().len())?;
        let deed = complete(&mut self.work, alloc, answer)?;
        take_said(&self.work, &mut self.opened, &mut self.output);
        Ok(Some(deed))
    }
}

// What an operation printed and opened goes behind what was printed and opened before.
fn take_said(work: &Work, opened: &mut Vec<u32>, output: &mut Vec<u8>)
    requires printed { length output.old.items + length work.now.printed ≤ output.old.cap }
    requires opened { length opened.old.items + length work.now.opens ≤ opened.old.cap }
    ensures printed { output.new.items ≡ output.old.items ++ work.now.printed }
    ensures opened { opened.new.items ≡ with_numbers work.now.opens opened.old.items }
    ensures named { AreNamedSayings work.now.values work.now.note work.now.opens }
{
    put_behind(output, work.printed());
    add_all(opened, work.opened());
}

// Bytes go behind those that are there. Most operations print none.
fn put_behind(output: &mut Vec<u8>, bytes: &[u8])
    requires { length output.old.items + length bytes.now ≤ output.old.cap }
    ensures { output.new.items ≡ output.old.items ++ bytes.now }
{
    if !bytes.is_empty() {
        let _ = output.extend_from_slice(bytes);
    }
}
