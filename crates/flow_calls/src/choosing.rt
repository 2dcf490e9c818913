// Which function is called, or why the call fails.
ghost use Rattle.std.specs.Prelude.{◌≡◌, ◌∷◌, IfOk};
ghost use Rattle.py_tree.specs.Erasure.{script_of};
ghost use Rattle.flow_calls.specs.Choosing.{IsCalledBy};

use prov_base::{Memory, Pos};
use py_tree::Script;
use py_value::Value;
use script_names::{Found, function_at};
use std::alloc::Global;

/// What a call of a function comes to.
#[derive(Clone, Copy)]
pub enum Called<'a> {
    /// This function is run.
    Runs(Found<'a>),
    /// The call fails: what is called is not callable (0), the number of arguments is wrong (1), or one activation too many would be open (2).
    Fails(u32),
}

/// What a call of the function at a place comes to, with so many values for its parameters, where so many activations are open. At most 1,000
/// may be open.
pub fn called_by<'a>(
    script: &'a Script,
    place: Pos,
    count: usize,
    are_open: u32,
) -> Result<Called<'a>, Memory>
    ensures { IfOk result (λ called. IsCalledBy (script_of script.entry.now) place count are_open called) }
{
    let found = match function_at(script, place) {
        Err(refused) => return Err(refused),
        Ok(found) => found,
    };
    let Some(found) = found else {
        return Ok(Called::Fails(0));
    };
    if found.params.list.len() != count {
        return Ok(Called::Fails(1));
    }
    if are_open < 1000 {
        Ok(Called::Runs(found))
    } else {
        Ok(Called::Fails(2))
    }
}

/// A value in front of others.
pub fn in_front(alloc: Global, first: Value, others: &[Value]) -> Result<Vec<Value>, Memory>
    ensures { IfOk result (λ vs. vs.items ≡ first ∷ others.now) }
{
    let mut values = Vec::new(alloc);
    values.push(first)?;
    values.extend_from_slice(others)?;
    Ok(values)
}
