// Three operands.
ghost use Rattle.std.specs.Prelude.{map};
ghost use Rattle.op_items.specs.Operands.{of_three, IsNamedThree, seen_three};
ghost use Rattle.op_work.specs.Work.{Comes};
ghost use Rattle.py_model.specs.Plan.{Plan};
ghost use Rattle.py_value.specs.Contents.{Contents, contents};
ghost use Rattle.py_value.specs.Values.{AreNamed};

use op_work::{Exception, Stop, Work};
use py_value::Value;
use std::alloc::Global;

/// The operands of an operation that takes three.
pub fn three(
    work: &mut Work,
    alloc: Global,
    operands: &[Value],
) -> Result<(Value, (Value, Value)), Stop>
    requires { AreNamed work.old.values operands.now }
    ensures { Comes IsNamedThree seen_three (λ table (go : Contents × (Contents × Contents) → Plan). of_three (λ v w x. go (v, (w, x))) (map (contents table) operands.now)) work.old work.new result }
{
    if operands.len() != 3 {
        return Err(work.fault(alloc, Exception::TypeError, "wrong number of arguments"));
    }
    Ok((operands[0], (operands[1], operands[2])))
}
