// An activation is entered: its parameters are set.
ghost use Rattle.std.specs.Prelude.{◌≡◌, ◌<◌, Some, map, length, None};
ghost use Rattle.op_state.specs.Entering.{parameters_plan, set_parameters as set_plan};
ghost use Rattle.op_state.specs.Held.{Finishes, begun};
ghost use Rattle.op_work.specs.Work.{Ends, Extends, Wrote};
ghost use Rattle.py_model.specs.Plan.{write};
ghost use Rattle.py_value.specs.Contents.{contents};
ghost use Rattle.py_value.specs.Seen.{var_at, var_is};
ghost use Rattle.py_value.specs.Values.{AreNamed, IsNamed};

use crate::beginning::begin;
use crate::held::Held;
use op_work::{Stop, Work};
use prov_base::{Memory, Name};
use py_model::{Answer, Deed};
use py_value::{Content, Location, Value};
use std::alloc::Global;

impl Held {
    /// The names of an activation's parameters are set to these values, with so many steps left. It is none where that costs more.
    pub fn enter(
        &mut self,
        alloc: Global,
        activation: u32,
        names: &[Name],
        values: &[Value],
        left: u32,
    ) -> Result<Option<Deed>, Memory>
        requires counted { length values.now ≡ length names.now }
        requires named { AreNamed self.old.work.values values.now }
        requires some { 0 < left }
        ensures finishes { Finishes (parameters_plan activation names.now values.now) (record self.old { work = begun left self.old.work }) self.new result }
        ensures extends { Extends self.old.work.values self.new.work.values }
    {
        begin(&mut self.work, left);
        let answer = parameters(&mut self.work, alloc, activation, names, values);
        self.end(alloc, answer)
    }
}

// All parameters are set, as a whole operation.
fn parameters(
    work: &mut Work,
    alloc: Global,
    activation: u32,
    names: &[Name],
    values: &[Value],
) -> Result<Answer, Stop>
    requires counted { length values.now ≡ length names.now }
    requires named { AreNamed work.old.values values.now }
    requires fresh { work.old.made ≡ None }
    ensures { Ends (parameters_plan activation names.now values.now) work.old work.new result }
{
    set_parameters(work, alloc, activation, names, values)?;
    Ok(Answer::Value(Value::None))
}

// The parameters are set, one after the other.
fn set_parameters(
    work: &mut Work,
    alloc: Global,
    activation: u32,
    names: &[Name],
    values: &[Value],
) -> Result<(), Stop>
    requires counted { length values.now ≡ length names.now }
    requires named { AreNamed work.old.values values.now }
    ensures { Wrote (λ table. set_plan activation names.now (map (contents table) values.now)) work.old work.new result }
{
    let mut i = 0;
    for name in names {
        set_parameter(work, alloc, activation, name.as_str(), values[i])?;
        i += 1;
    }
    Ok(())
}

// A variable of an activation is set to a value.
fn set_parameter(
    work: &mut Work,
    alloc: Global,
    activation: u32,
    name: &str,
    v: Value,
) -> Result<(), Stop>
    requires { IsNamed work.old.values v }
    ensures { Wrote (λ table. write (var_at activation name.now) (var_is (Some (contents table v)))) work.old work.new result }
{
    let number = work.number(alloc, name)?;
    work.set(Location::Var(activation, number), Content::Var(Some(v)))
}
