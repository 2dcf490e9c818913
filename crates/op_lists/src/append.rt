// An item behind the others of a list.
ghost use Rattle.std.specs.Prelude.{◌≡◌, ◌<◌, suc, [], ◌∷◌, None, length, OnOk};
ghost use Rattle.object_store.specs.Store.{count_with};
ghost use Rattle.op_work.specs.Work.{Comes, Ends, WroteAll, is_any, as_is};
ghost use Rattle.py_model.specs.Lists.{append as append_plan, when_list};
ghost use Rattle.py_model.specs.Plan.{Plan, kind_of, write, done};
ghost use Rattle.py_value.specs.Contents.{contents, object, nothing};
ghost use Rattle.py_value.specs.Seen.{item_at, item_is, len_at, len_is};
ghost use Rattle.py_value.specs.Values.{IsNamed};

use op_work::{Exception, Stop, Work};
use py_model::Answer;
use py_value::{Content, Kind, Location, Value};
use std::alloc::Global;

/// It goes on where an object is a list.
pub fn list(work: &mut Work, alloc: Global, o: u32) -> Result<(), Stop>
    ensures comes { Comes is_any as_is (λ table (go : Unit {0} → Plan). kind_of o (when_list (go tt))) work.old work.new result }
    ensures there { OnOk result (o < length work.old.store.objects) }
{
    match work.kind_there(o) {
        Some(Kind::List) => Ok(()),
        Some(Kind::Dict) => Err(work.fault(alloc, Exception::TypeError, "wrong kind of value")),
        Some(Kind::Instance(_)) => Err(work.fault(
            alloc,
            Exception::TypeError,
            "wrong kind of value",
        )),
        Some(Kind::File(_, _)) => Err(work.fault(
            alloc,
            Exception::TypeError,
            "wrong kind of value",
        )),
        None => Err(work.fault(alloc, Exception::TypeError, "wrong kind of value")),
    }
}

/// `l.append(v)` on an object: the length is read, then the item is set behind the others, and the length.
pub fn append_to(work: &mut Work, alloc: Global, o: u32, item: Value) -> Result<Answer, Stop>
    requires named { IsNamed work.old.values item }
    requires fresh { work.old.made ≡ None }
    ensures { Ends (λ table. append_plan (object o ∷ contents table item ∷ [])) work.old work.new result }
{
    list(work, alloc, o)?;
    let n = work.read_len(o)?;
    put_behind(work, o, n, item)
}

// An item is set behind so many others, and the length.
fn put_behind(work: &mut Work, o: u32, n: u64, item: Value) -> Result<Answer, Stop>
    requires named { IsNamed work.old.values item }
    requires within { o < count_with work.old.made work.old.store }
    ensures { WroteAll (λ table. write (item_at o n) (item_is (contents table item)) (write (len_at o) (len_is (suc n)) (done nothing))) work.old work.new result }
{
    let Some(longer) = n.checked_add(1) else {
        return Err(Stop::Memory);
    };
    work.set(Location::Item(o, n), Content::Item(item))?;
    work.set(Location::Len(o), Content::Len(longer))?;
    Ok(Answer::Value(Value::None))
}
