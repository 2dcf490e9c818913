// What a dictionary's order gives, and an empty dictionary.
ghost use Rattle.std.specs.Prelude.{◌≡◌, ◌<◌, [], map, None};
ghost use Rattle.object_store.specs.Store.{count_with};
ghost use Rattle.op_work.specs.Work.{Ends, WroteAll};
ghost use Rattle.py_model.specs.Dicts.{dict_builtin as dict_plan, keys_method};
ghost use Rattle.py_model.specs.Plan.{write, done};
ghost use Rattle.py_value.specs.Contents.{contents, object};
ghost use Rattle.py_value.specs.Seen.{order_at, order_is};
ghost use Rattle.py_value.specs.Values.{AreNamed};

use crate::receivers::dict_operand;
use op_lists::{new_list, walk_keys};
use op_work::{Exception, Stop, Work};
use py_model::Answer;
use py_value::{Content, Keys, Kind, Location, Value};
use std::alloc::Global;

/// `d.keys()` (89): the order is read, and a list of the keys is made.
pub fn keys(work: &mut Work, alloc: Global, operands: &[Value]) -> Result<Answer, Stop>
    requires fresh { work.old.made ≡ None }
    ensures { Ends (λ table. keys_method (map (contents table) operands.now)) work.old work.new result }
{
    let o = dict_operand(work, alloc, operands, 1)?;
    let items = walk_keys(work, alloc, o)?;
    new_list(work, items.as_slice())
}

// An object begins with an order of no keys.
fn set_empty(work: &mut Work, alloc: Global, o: u32) -> Result<Answer, Stop>
    requires within { o < count_with work.old.made work.old.store }
    ensures { WroteAll (λ table. write (order_at o) (order_is []) (done (object o))) work.old work.new result }
{
    work.set(
        Location::Order(o),
        Content::Order(Keys::of(Vec::new(alloc))),
    )?;
    Ok(Answer::Value(Value::Object(o)))
}

/// `dict()` (53): an empty dictionary is made.
pub fn dict_builtin(work: &mut Work, alloc: Global, operands: &[Value]) -> Result<Answer, Stop>
    requires fresh { work.old.made ≡ None }
    ensures { Ends (λ table. dict_plan (map (contents table) operands.now)) work.old work.new result }
{
    if !operands.is_empty() {
        return Err(work.fault(alloc, Exception::TypeError, "wrong number of arguments"));
    }
    let o = work.make(Kind::Dict);
    set_empty(work, alloc, o)
}
