// A dictionary of given pairs.
ghost use Rattle.std.specs.Prelude.{◌≡◌, ◌<◌, None, map};
ghost use Rattle.object_store.specs.Store.{count_with};
ghost use Rattle.op_mutations.specs.Pairs.{ArePairs, pairs_seen, firsts as firsts_of, entries_set};
ghost use Rattle.op_work.specs.Work.{Ends, Wrote, WroteAll};
ghost use Rattle.py_model.specs.Dicts.{new_dict as dict_plan};
ghost use Rattle.py_model.specs.Plan.{write, done};
ghost use Rattle.py_value.specs.Contents.{contents, object};
ghost use Rattle.py_value.specs.Seen.{order_at, order_is};

use crate::pairs::{Pair, firsts};
use op_work::{Stop, Work};
use py_model::Answer;
use py_value::{Content, Keys, Kind, Location, Value, contents_stay};
use std::alloc::Global;

// The entries of an object are set, one after the other.
fn set_entries(work: &mut Work, o: u32, pairs: &[Pair]) -> Result<(), Stop>
    requires pairs { ArePairs work.old.values pairs.now }
    ensures { Wrote (λ table. entries_set o table pairs.now) work.old work.new result }
{
    for pair in pairs {
        work.set(
            Location::Entry(o, pair.key),
            Content::Entry(Some((pair.first, pair.item))),
        )?;
    }
    Ok(())
}

// The order of a dictionary is set, and then its entries.
fn fill(work: &mut Work, alloc: Global, o: u32, pairs: &[Pair]) -> Result<Answer, Stop>
    requires pairs { ArePairs work.old.values pairs.now }
    requires within { o < count_with work.old.made work.old.store }
    ensures { WroteAll (λ table. write (order_at o) (order_is (map (contents table) (firsts_of pairs.now))) (entries_set o table pairs.now (done (object o)))) work.old work.new result }
{
    contents_stay();
    let _ = work.values();
    let keys = firsts(alloc, pairs)?;
    work.set(Location::Order(o), Content::Order(Keys::of(keys)))?;
    set_entries(work, o, pairs)?;
    Ok(Answer::Value(Value::Object(o)))
}

/// A dictionary of these pairs is made: its order is set, then its entries. It is the answer.
pub(crate) fn new_dict(work: &mut Work, alloc: Global, pairs: &[Pair]) -> Result<Answer, Stop>
    requires pairs { ArePairs work.old.values pairs.now }
    requires fresh { work.old.made ≡ None }
    ensures { Ends (λ table. dict_plan (pairs_seen table pairs.now)) work.old work.new result }
{
    contents_stay();
    let _ = work.values();
    let o = work.make(Kind::Dict);
    fill(work, alloc, o, pairs)
}
