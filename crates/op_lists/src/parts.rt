// The parts of tuples.
ghost use Rattle.std.specs.Prelude.{◌≡◌, ◌<◌, length};
ghost use Rattle.op_lists.specs.Parts.{part_in};
ghost use Rattle.py_value.specs.Values.{IsNamed};

use op_work::Work;
use py_value::Value;

/// The part of a tuple at a place, None behind the last.
pub fn part_at(work: &Work, id: u32, i: usize) -> Value
    requires { id < length work.now.values.tuples }
    ensures part { result ≡ part_in work.now.values id i }
    ensures named { IsNamed work.now.values result }
{
    match work.tuple_of(id).get(i) {
        Some(v) => *v,
        None => Value::None,
    }
}
