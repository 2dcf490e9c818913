// Lists of the values of a dictionary, and of its pairs.
ghost use Rattle.std.specs.Prelude.{◌≡◌, map, List, None};
ghost use Rattle.op_mutations.specs.Entries.{value_at};
ghost use Rattle.op_lists.specs.ValuesSeen.{values_seen};
ghost use Rattle.op_work.specs.Work.{Comes, Ends};
ghost use Rattle.py_model.specs.Dicts.{values_method, items_method, read_entries};
ghost use Rattle.py_value.specs.Contents.{contents};
ghost use Rattle.py_value.specs.Values.{IsNamed, AreNamed};

use op_dicts::dict_operand;
use op_lists::{new_list, order_key, pair_up, walk_keys};
use op_work::{Stop, Work};
use py_model::Answer;
use py_value::Value;
use std::alloc::Global;

// The value at a key of an order.
fn entry_value(work: &mut Work, alloc: Global, o: u32, v: Value) -> Result<Value, Stop>
    requires { IsNamed work.old.values v }
    ensures { Comes IsNamed contents (λ table. value_at o (contents table v)) work.old work.new result }
{
    let key = order_key(work, alloc, v)?;
    let entry = work.read_entry(o, v, key)?;
    match entry {
        Some(pair) => Ok(pair.1),
        None => Ok(Value::None),
    }
}

// The values at the keys of an order, one after the other.
fn entry_values(work: &mut Work, alloc: Global, o: u32, keys: &[Value]) -> Result<Vec<Value>, Stop>
    requires { AreNamed work.old.values keys.now }
    ensures { Comes (λ values vs. AreNamed values vs.items) (λ table vs. values_seen table vs.items) (λ table. read_entries o (values_seen table keys.now)) work.old work.new result }
{
    let mut items = Vec::new(alloc);
    for i in 0..keys.len() {
        let item = entry_value(work, alloc, o, keys[i])?;
        items.push(item)?;
    }
    Ok(items)
}

/// `d.values()` (90): the order and each entry are read, and a list of the values is made.
pub fn values(work: &mut Work, alloc: Global, operands: &[Value]) -> Result<Answer, Stop>
    requires fresh { work.old.made ≡ None }
    ensures { Ends (λ table. values_method (map (contents table) operands.now)) work.old work.new result }
{
    let o = dict_operand(work, alloc, operands, 1)?;
    let keys = walk_keys(work, alloc, o)?;
    let found = entry_values(work, alloc, o, keys.as_slice())?;
    new_list(work, found.as_slice())
}

/// `d.items()` (88): the order and each entry are read, and a list of the pairs is made.
pub fn items(work: &mut Work, alloc: Global, operands: &[Value]) -> Result<Answer, Stop>
    requires fresh { work.old.made ≡ None }
    ensures { Ends (λ table. items_method (map (contents table) operands.now)) work.old work.new result }
{
    let o = dict_operand(work, alloc, operands, 1)?;
    let keys = walk_keys(work, alloc, o)?;
    let found = entry_values(work, alloc, o, keys.as_slice())?;
    let both = pair_up(work, alloc, keys.as_slice(), found.as_slice())?;
    new_list(work, both.as_slice())
}
