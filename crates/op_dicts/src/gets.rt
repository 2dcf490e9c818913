// The value of a key, or else of what is given instead.
ghost use Rattle.std.specs.Prelude.{◌≡◌, ◌<◌, ◌∷◌, [], None, length, OnOk};
ghost use Rattle.op_work.specs.Work.{Comes, Ends, is_any, as_is};
ghost use Rattle.py_model.specs.Dicts.{get_method, value_or as plan_value_or, when_dict};
ghost use Rattle.py_model.specs.Plan.{Plan, kind_of};
ghost use Rattle.py_value.specs.Contents.{contents, object};
ghost use Rattle.py_value.specs.Values.{IsNamed};

use crate::entries::entry_at;
use op_work::{Exception, Stop, Work};
use py_model::Answer;
use py_value::{Kind, Value};
use std::alloc::Global;

/// It goes on where an object is a dictionary.
pub fn dict(work: &mut Work, alloc: Global, o: u32) -> Result<(), Stop>
    ensures comes { Comes is_any as_is (λ table (go : Unit {0} → Plan). kind_of o (when_dict (go tt))) work.old work.new result }
    ensures there { OnOk result (o < length work.old.store.objects) }
{
    match work.kind_there(o) {
        Some(Kind::Dict) => Ok(()),
        Some(Kind::List) => Err(work.fault(alloc, Exception::TypeError, "wrong kind of value")),
        Some(Kind::Instance(_)) => Err(work.fault(
            alloc,
            Exception::TypeError,
            "wrong kind of value",
        )),
        Some(Kind::File(_, _)) => Err(work.fault(
            alloc,
            Exception::TypeError,
            "wrong kind of value",
        )),
        None => Err(work.fault(alloc, Exception::TypeError, "wrong kind of value")),
    }
}

// The value of a key of a dictionary, or else another.
fn value_or(
    work: &mut Work,
    alloc: Global,
    o: u32,
    v: Value,
    instead: Value,
) -> Result<Answer, Stop>
    requires key { IsNamed work.old.values v }
    requires instead { IsNamed work.old.values instead }
    requires fresh { work.old.made ≡ None }
    ensures { Ends (λ table. plan_value_or o (contents table v) (contents table instead)) work.old work.new result }
{
    let (key, entry) = entry_at(work, alloc, o, v)?;
    let _ = key;
    match entry {
        Some(pair) => Ok(Answer::Value(pair.1)),
        None => Ok(Answer::Value(instead)),
    }
}

/// `d.get(key, instead)` on an object.
pub fn get_or(
    work: &mut Work,
    alloc: Global,
    o: u32,
    v: Value,
    instead: Value,
) -> Result<Answer, Stop>
    requires key { IsNamed work.old.values v }
    requires instead { IsNamed work.old.values instead }
    requires fresh { work.old.made ≡ None }
    ensures { Ends (λ table. get_method (object o ∷ contents table v ∷ contents table instead ∷ [])) work.old work.new result }
{
    dict(work, alloc, o)?;
    value_or(work, alloc, o, v, instead)
}

/// `d.get(key)` on an object.
pub fn get(work: &mut Work, alloc: Global, o: u32, v: Value) -> Result<Answer, Stop>
    requires key { IsNamed work.old.values v }
    requires fresh { work.old.made ≡ None }
    ensures { Ends (λ table. get_method (object o ∷ contents table v ∷ [])) work.old work.new result }
{
    dict(work, alloc, o)?;
    value_or(work, alloc, o, v, Value::None)
}
