// Lists of pairs: the items of two sequences, and numbered items.
ghost use Rattle.std.specs.Prelude.{◌≡◌, None, map, List, [], ◌∷◌};
ghost use Rattle.op_lists.specs.ValuesSeen.{values_seen};
ghost use Rattle.op_work.specs.Work.{Comes, Ends};
ghost use Rattle.op_lists.specs.Zipped.{zipped as zipped_plan};
ghost use Rattle.py_model.specs.Dicts.{paired};
ghost use Rattle.py_model.specs.Lists.{zip_builtin as zip_plan, enumerate as enumerate_plan, numbered as numbered_from};
ghost use Rattle.py_model.specs.Plan.{Plan};
ghost use Rattle.py_value.specs.Contents.{Contents, contents, tuple, part, no_parts};
ghost use Rattle.py_value.specs.Values.{IsNamed, AreNamed};

use crate::making::new_list;
use crate::walk::walk_value;
use crate::walked::if_walked;
use op_numbers::{one, two};
use op_work::{Stop, Work};
use py_model::Answer;
use py_value::Value;
use std::alloc::Global;

// The tuple of two values.
fn pair(work: &mut Work, alloc: Global, left: Value, right: Value) -> Result<Value, Stop>
    requires left { IsNamed work.old.values left }
    requires right { IsNamed work.old.values right }
    ensures { Comes IsNamed contents (λ table (go : Contents → Plan). go (tuple (part (contents table left) (part (contents table right) no_parts)))) work.old work.new result }
{
    work.tuple(alloc, &[left, right])
}

/// The pairs of two lists, up to the end of the shorter.
pub fn pair_up(
    work: &mut Work,
    alloc: Global,
    lefts: &[Value],
    rights: &[Value],
) -> Result<Vec<Value>, Stop>
    requires lefts { AreNamed work.old.values lefts.now }
    requires rights { AreNamed work.old.values rights.now }
    ensures { Comes (λ values vs. AreNamed values vs.items) (λ table vs. values_seen table vs.items) (λ table (go : List Contents → Plan). go (paired (values_seen table lefts.now) (values_seen table rights.now))) work.old work.new result }
{
    let mut items = Vec::new(alloc);
    for i in 0..lefts.len().min(rights.len()) {
        let item = pair(work, alloc, lefts[i], rights[i])?;
        items.push(item)?;
    }
    Ok(items)
}

// The items of a list, each with its number.
fn numbered(work: &mut Work, alloc: Global, items: &[Value]) -> Result<Vec<Value>, Stop>
    requires { AreNamed work.old.values items.now }
    ensures { Comes (λ values vs. AreNamed values vs.items) (λ table vs. values_seen table vs.items) (λ table (go : List Contents → Plan). go (numbered_from 0 (values_seen table items.now))) work.old work.new result }
{
    let mut made = Vec::new(alloc);
    for i in 0..items.len() {
        let Ok(number) = i64::try_from(i) else {
            return Err(Stop::Memory);
        };
        let item = pair(work, alloc, Value::Int(number), items[i])?;
        made.push(item)?;
    }
    Ok(made)
}

// The pairs of the items of two sequences. Both can be walked before anything is read.
fn zipped(work: &mut Work, alloc: Global, left: Value, right: Value) -> Result<Vec<Value>, Stop>
    requires left { IsNamed work.old.values left }
    requires right { IsNamed work.old.values right }
    ensures { Comes (λ values vs. AreNamed values vs.items) (λ table vs. values_seen table vs.items) (λ table. zipped_plan (contents table left) (contents table right)) work.old work.new result }
{
    if_walked(work, alloc, left)?;
    if_walked(work, alloc, right)?;
    let lefts = walk_value(work, alloc, left)?;
    let rights = walk_value(work, alloc, right)?;
    pair_up(work, alloc, lefts.as_slice(), rights.as_slice())
}

/// `zip(v, w)` (71): the list of the pairs of the items of two sequences, up to the end of the shorter.
pub fn zip(work: &mut Work, alloc: Global, operands: &[Value]) -> Result<Answer, Stop>
    requires named { AreNamed work.old.values operands.now }
    requires fresh { work.old.made ≡ None }
    ensures { Ends (λ table. zip_plan (map (contents table) operands.now)) work.old work.new result }
{
    let (left, right) = two(work, alloc, operands)?;
    let items = zipped(work, alloc, left, right)?;
    new_list(work, items.as_slice())
}

/// `enumerate(v)` (54): the list of the items of a sequence, each with its number.
pub fn enumerate(work: &mut Work, alloc: Global, operands: &[Value]) -> Result<Answer, Stop>
    requires named { AreNamed work.old.values operands.now }
    requires fresh { work.old.made ≡ None }
    ensures { Ends (λ table. enumerate_plan (map (contents table) operands.now)) work.old work.new result }
{
    let sequence = one(work, alloc, operands)?;
    let walked = walk_value(work, alloc, sequence)?;
    let items = numbered(work, alloc, walked.as_slice())?;
    new_list(work, items.as_slice())
}
