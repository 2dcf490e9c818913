// Lists and tuples of operands, and of the items of a sequence.
ghost use Rattle.std.specs.Prelude.{◌≡◌, None, map};
ghost use Rattle.op_work.specs.Work.{Ends};
ghost use Rattle.py_model.specs.Lists.{list_display as list_plan, tuple_display as tuple_plan, list_builtin as list_of_plan, tuple_builtin as tuple_of_plan};
ghost use Rattle.py_value.specs.Contents.{contents};
ghost use Rattle.py_value.specs.Values.{AreNamed};

use crate::making::new_list;
use crate::walk::walk_value;
use op_numbers::{one, value_answer};
use op_work::{Stop, Work};
use py_model::Answer;
use py_value::Value;
use std::alloc::Global;

/// A list display (23): the list of its items.
pub fn list_display(work: &mut Work, operands: &[Value]) -> Result<Answer, Stop>
    requires named { AreNamed work.old.values operands.now }
    requires fresh { work.old.made ≡ None }
    ensures { Ends (λ table. list_plan (map (contents table) operands.now)) work.old work.new result }
{
    new_list(work, operands)
}

/// A tuple display (25): the tuple of its items.
pub fn tuple_display(work: &mut Work, alloc: Global, operands: &[Value]) -> Result<Answer, Stop>
    requires named { AreNamed work.old.values operands.now }
    requires fresh { work.old.made ≡ None }
    ensures { Ends (λ table. tuple_plan (map (contents table) operands.now)) work.old work.new result }
{
    let made = work.tuple(alloc, operands)?;
    value_answer(work, made)
}

/// `list(v)` (59): the list of the items of a sequence, which is walked.
pub fn list_builtin(work: &mut Work, alloc: Global, operands: &[Value]) -> Result<Answer, Stop>
    requires named { AreNamed work.old.values operands.now }
    requires fresh { work.old.made ≡ None }
    ensures { Ends (λ table. list_of_plan (map (contents table) operands.now)) work.old work.new result }
{
    let sequence = one(work, alloc, operands)?;
    let items = walk_value(work, alloc, sequence)?;
    new_list(work, items.as_slice())
}

/// `tuple(v)` (70): the tuple of the items of a sequence, which is walked.
pub fn tuple_builtin(work: &mut Work, alloc: Global, operands: &[Value]) -> Result<Answer, Stop>
    requires named { AreNamed work.old.values operands.now }
    requires fresh { work.old.made ≡ None }
    ensures { Ends (λ table. tuple_of_plan (map (contents table) operands.now)) work.old work.new result }
{
    let sequence = one(work, alloc, operands)?;
    let items = walk_value(work, alloc, sequence)?;
    tuple_display(work, alloc, items.as_slice())
}
