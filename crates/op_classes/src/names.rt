// Reads and writes of variables.
ghost use Rattle.std.specs.Prelude.{◌≡◌, ◌<◌, length, None, Err};
ghost use Rattle.op_work.specs.Work.{Ends};
ghost use Rattle.py_model.specs.Classes.{import_module as plan_import};
ghost use Rattle.py_model.specs.Names.{load as plan_load, load_unset as plan_load_unset, bind as plan_bind, unbind as plan_unbind, unset as plan_clear, unset_name as plan_no_name};
ghost use Rattle.py_value.specs.Contents.{contents};
ghost use Rattle.py_value.specs.Seen.{bytes_of};
ghost use Rattle.py_value.specs.Values.{IsNamed};

use crate::language::known;
use crate::words::named_fault;
use op_work::{Exception, Stop, Work};
use py_model::Answer;
use py_value::{Content, Location, Value};
use std::alloc::Global;

/// Reads a variable (operation 1): a local name of its activation, or a name of the module (activation 0), where an unset name may be one
/// of the language.
pub fn load(work: &mut Work, alloc: Global, scope: u32, name: u32) -> Result<Answer, Stop>
    requires first { work.old.made ≡ None }
    requires name { name < length work.old.values.texts }
    ensures { Ends (λ table. plan_load scope (bytes_of table name)) work.old work.new result }
{
    let variable = work.read_var(scope, name)?;
    match variable {
        Some(v) => Ok(Answer::Value(v)),
        None => load_unset(work, alloc, scope, name),
    }
}

// What an unset name comes to.
fn load_unset(work: &mut Work, alloc: Global, scope: u32, name: u32) -> Result<Answer, Stop>
    requires first { work.old.made ≡ None }
    requires name { name < length work.old.values.texts }
    ensures { Ends (λ table. plan_load_unset scope (bytes_of table name)) work.old work.new result }
{
    if scope > 0 {
        return Err(unset_name(work, alloc, scope, name));
    }
    match known(work.text_of(name)) {
        Some(v) => Ok(Answer::Value(v)),
        None => Err(unset_name(work, alloc, 0, name)),
    }
}

/// Reads a variable and unsets it (operation 34). One that is unset is refused, but not silently at the end of an `except` clause.
pub fn unbind(
    work: &mut Work,
    alloc: Global,
    silent: bool,
    scope: u32,
    name: u32,
) -> Result<Answer, Stop>
    requires first { work.old.made ≡ None }
    requires name { name < length work.old.values.texts }
    ensures { Ends (λ table. plan_unbind silent scope (bytes_of table name)) work.old work.new result }
{
    let variable = work.read_var(scope, name)?;
    if silent {
        return unset(work, scope, name);
    }
    match variable {
        Some(_) => unset(work, scope, name),
        None => Err(unset_name(work, alloc, scope, name)),
    }
}

/// Sets a variable of an activation, or of the module (operation 33).
pub fn bind(work: &mut Work, scope: u32, name: u32, v: Value) -> Result<Answer, Stop>
    requires first { work.old.made ≡ None }
    requires name { name < length work.old.values.texts }
    requires value { IsNamed work.old.values v }
    ensures { Ends (λ table. plan_bind scope (bytes_of table name) (contents table v)) work.old work.new result }
{
    work.set(Location::Var(scope, name), Content::Var(Some(v)))?;
    Ok(Answer::Value(Value::None))
}

/// Imports a module (operation 44): a variable of an activation, or of the module, is set to it.
pub fn import_module(work: &mut Work, scope: u32, name: u32, v: Value) -> Result<Answer, Stop>
    requires first { work.old.made ≡ None }
    requires name { name < length work.old.values.texts }
    requires value { IsNamed work.old.values v }
    ensures { Ends (λ table. plan_import scope (bytes_of table name) (contents table v)) work.old work.new result }
{
    bind(work, scope, name, v)
}

// A variable is unset.
fn unset(work: &mut Work, scope: u32, name: u32) -> Result<Answer, Stop>
    requires first { work.old.made ≡ None }
    requires name { name < length work.old.values.texts }
    ensures { Ends (λ table. plan_clear scope (bytes_of table name)) work.old work.new result }
{
    work.set(Location::Var(scope, name), Content::Var(None))?;
    Ok(Answer::Value(Value::None))
}

/// What is raised for a name that is unset, of the module (activation 0) or of an activation.
pub fn unset_name(work: &mut Work, alloc: Global, scope: u32, name: u32) -> Stop
    requires name { name < length work.old.values.texts }
    ensures { Ends (λ table. plan_no_name scope (bytes_of table name)) work.old work.new (Err result) }
{
    if scope == 0 {
        return named_fault(
            work,
            alloc,
            Exception::NameError,
            "name '",
            name,
            "' is not defined",
        );
    }
    named_fault(
        work,
        alloc,
        Exception::UnboundLocalError,
        "local name '",
        name,
        "' is not set",
    )
}
