// The handlers of a `try`, and the names that clauses bind.
ghost use Rattle.std.specs.Prelude.{◌≡◌, ◌+◌, IfOk};
ghost use Rattle.py_tree.specs.Erasure.{form_of};
ghost use Rattle.py_tree.specs.Tree.{ScriptTree};
ghost use Rattle.py_value.specs.Contents.{contents};
ghost use Rattle.py_value.specs.Values.{ValuesView, IsNamed};
ghost use Rattle.py_model.specs.Act.{Act};
ghost use Rattle.py_model.specs.Expressions.{Here, Task};
ghost use Rattle.py_model.specs.Statements.{handle};
ghost use Rattle.interp_eval.specs.Machine.{is_true};
ghost use Rattle.interp_eval.specs.declared.frames.Scope.{Scope as OneScope};
ghost use Rattle.flow_frames.specs.Held.{IsHeldNow};
ghost use Rattle.flow_frames.specs.Machine.{clause_act, entered_act, handler_in, handlers_from, handlers_in, match_act, now_act};
ghost use Rattle.flow_frames.specs.Seen.{now_seen};

use flow_frames::{Code, End, Now, Part, Stage, is_true, on_one, on_two, start};
use flow_openings::{bound_in, handler_in};
use interp_eval::Scope;
use prov_base::Memory;
use py_value::Value;
use std::alloc::Global;

/// The file of a `with` is bound where it has a name, or a class is there; then its suite is next.
pub(crate) fn entered<'a>(alloc: Global, part: Part<'a>, value: Value) -> Result<Now<'a>, Memory>
    ensures means { IfOk result (λ now. (script : ScriptTree) (next : Task → Act) (here : Here) (table : ValuesView)
        → now_act script next here (now_seen table now) ≡ entered_act script next here part.entry.stmt.now.pos (form_of part.entry.stmt.now.form.value) (contents table value)) }
    ensures held { IfOk result (λ now. (table : ValuesView) (scope : OneScope) → IsNamed table value → IsHeldNow table scope now) }
{
    match bound_in(part.stmt) {
        None => Ok(Now::Opens(part.to(Stage::Inside(value)))),
        Some(bound) => {
            let named = part.to(Stage::Named(value));
            on_one(alloc, bound.at, Code::Bind(&bound.name), value, named)
        }
    }
}

/// The clause of a handler begins: its name is bound where it has one.
fn claused<'a>(alloc: Global, part: Part<'a>, number: usize, o: u32) -> Result<Now<'a>, Memory>
    ensures means { IfOk result (λ now. (script : ScriptTree) (next : Task → Act) (here : Here) (table : ValuesView)
        → now_act script next here (now_seen table now) ≡ clause_act script next here part.entry.stmt.now.pos (form_of part.entry.stmt.now.form.value) number o (handler_in (form_of part.entry.stmt.now.form.value) number)) }
    ensures held { IfOk result (λ now. (table : ValuesView) (scope : OneScope) → IsHeldNow table scope now) }
{
    let Some(handler) = handler_in(part.stmt, number) else {
        return Ok(Now::Ended(End::Normal));
    };
    match &handler.1 {
        None => Ok(Now::Opens(part.to(Stage::Handles(number, o)))),
        Some(bound) => {
            let catches = part.to(Stage::Catches(number, o));
            let value = Value::Object(o);
            on_one(alloc, bound.at, Code::Bind(&bound.name), value, catches)
        }
    }
}

/// A handler is next: it begins with its class where it has one, and where there is no handler the exception goes on.
pub fn handled<'a>(
    alloc: Global,
    part: Part<'a>,
    number: usize,
    o: u32,
    line: u32,
    scope: Scope,
) -> Result<Now<'a>, Memory>
    ensures means { IfOk result (λ now. (script : ScriptTree) (next : Task → Act) (here : Here) (table : ValuesView)
        → now_act script next here (now_seen table now) ≡ handle script next here part.entry.stmt.now.pos (handlers_from number (handlers_in (form_of part.entry.stmt.now.form.value))) o line) }
    ensures held { IfOk result (λ now. (table : ValuesView) → IsHeldNow table scope now) }
{
    let Some(handler) = handler_in(part.stmt, number) else {
        return Ok(Now::Ended(End::Threw(o, line)));
    };
    match &handler.0 {
        None => claused(alloc, part, number, o),
        Some(kind) => start(alloc, kind, scope, part.to(Stage::Sought(number, o, line))),
    }
}

/// Whether the exception is of the class of a handler was answered.
pub(crate) fn matched<'a>(
    alloc: Global,
    part: Part<'a>,
    number: usize,
    o: u32,
    line: u32,
    value: Value,
) -> Result<Now<'a>, Memory>
    ensures means { IfOk result (λ now. (script : ScriptTree) (next : Task → Act) (here : Here) (table : ValuesView)
        → now_act script next here (now_seen table now) ≡ match_act script next here part.entry.stmt.now.pos (form_of part.entry.stmt.now.form.value) number o line (contents table value)) }
    ensures held { IfOk result (λ now. (table : ValuesView) (scope : OneScope) → IsHeldNow table scope now) }
{
    if is_true(value) {
        return claused(alloc, part, number, o);
    }
    let after = next_handler(number)?;
    Ok(Now::Opens(part.to(Stage::Handler(after, o, line))))
}

/// The number of the handler behind one. The handlers of a script have numbers; past these it is out of memory.
fn next_handler(number: usize) -> Result<usize, Memory>
    ensures { IfOk result (λ after. after ≡ number + 1) }
{
    if number == usize::MAX {
        return Err(Memory);
    }
    Ok(number + 1)
}
