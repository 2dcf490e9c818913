// The display of a dictionary.
ghost use Rattle.std.specs.Prelude.{◌≡◌, [], None, map};
ghost use Rattle.op_mutations.specs.Pairs.{ArePairs, pairs_behind, pairs_seen};
ghost use Rattle.op_lists.specs.ValuesSeen.{values_seen};
ghost use Rattle.op_work.specs.Work.{Comes, Ends};
ghost use Rattle.py_model.specs.Dicts.{dict_display as display_plan};
ghost use Rattle.py_value.specs.Contents.{contents};
ghost use Rattle.py_value.specs.Values.{AreNamed};

use crate::making::new_dict;
use crate::pairs::{Pair, put_value};
use op_work::{Exception, Stop, Work};
use py_model::Answer;
use py_value::{
    Value, contents_stay, equality_is_same, same_key_same_normal_contents, tests_are_equality,
};
use std::alloc::Global;

// The distinct keys of a display, each tested, with the first form and the last value of each.
fn display_pairs(work: &mut Work, alloc: Global, operands: &[Value]) -> Result<Vec<Pair>, Stop>
    requires { AreNamed work.old.values operands.now }
    ensures { Comes (λ values ps. ArePairs values ps.items) (λ table ps. pairs_seen table ps.items) (λ table. pairs_behind (values_seen table operands.now) []) work.old work.new result }
{
    contents_stay();
    equality_is_same();
    same_key_same_normal_contents();
    tests_are_equality();
    let mut pairs = Vec::new(alloc);
    for i in 0..operands.len() / 2 {
        let _ = work.values();
        let key = work.key_of(alloc, operands[2 * i])?;
        let _ = work.values();
        put_value(&mut pairs, key, operands[2 * i], operands[2 * i + 1])?;
    }
    if operands.len() % 2 != 0 {
        return Err(work.fault(alloc, Exception::TypeError, "wrong number of arguments"));
    }
    Ok(pairs)
}

/// A dictionary display (24), key and value in turn: the dictionary of its distinct keys.
pub fn dict_display(work: &mut Work, alloc: Global, operands: &[Value]) -> Result<Answer, Stop>
    requires named { AreNamed work.old.values operands.now }
    requires fresh { work.old.made ≡ None }
    ensures { Ends (λ table. display_plan (map (contents table) operands.now)) work.old work.new result }
{
    let pairs = display_pairs(work, alloc, operands)?;
    new_dict(work, alloc, pairs.as_slice())
}
