// The first statement of a function that binds a name. What was found is remembered.
ghost use Rattle.std.specs.Prelude.{◌≡◌, ◌&&◌, Option, Some, [], map, slice_get, unwrap_or, IfOk, OnOk, if◌then◌else◌};
ghost use Rattle.std.specs.Map.{lookup};
ghost use Rattle.py_tree.specs.Binds.{binds};
ghost use Rattle.py_tree.specs.Erasure.{script_of};
ghost use Rattle.py_tree.specs.Numbering.{IsNumbered};
ghost use Rattle.py_tree.specs.Owners.{statements};
ghost use Rattle.slice_law.specs.Edges.{first_binder as first_that_binds, function_of_stmt};
ghost use Rattle.slice_edges.specs.declared.binder.Local.{Local as OneLocal};
ghost use Rattle.slice_edges.specs.contracts.binder.LocalPartialEq.TheImpl.{ghosts as locals};
ghost use Rattle.slice_edges.specs.Binder.{is_inside, AreBinders};

use indexmap::IndexMap;
use prov_base::Memory;
use py_tree::Script;

/// A name that a function reads, both by number.
#[derive(Clone, Copy, Debug, PartialEq, Eq, Hash)]
pub(crate) struct Local {
    pub function: u32,
    pub name: u32,
}

// Whether a statement stands in a function and binds a name.
fn binds_in(script: &Script, function: u32, stmt: u32, name: &str) -> bool
    requires { IsNumbered (script_of script.now) }
    ensures { result ≡ (is_inside function (function_of_stmt (script_of script.now) stmt) && binds (script_of script.now) stmt name.now) }
{
    match script.function_of(stmt) {
        Some(own) => function == own && script.binds(stmt, name),
        None => false,
    }
}

// The first statement that stands in a function and binds a name.
fn first_binder(script: &Script, function: u32, name: &str) -> Option<u32>
    requires { IsNumbered (script_of script.now) }
    ensures { result ≡ first_that_binds (Some function) name.now (statements (script_of script.now)) }
{
    for stmt in 0..script.count {
        if binds_in(script, function, stmt, name) {
            return Some(stmt);
        }
    }
    None
}

// The text with a number.
fn text_at<'a>(names: &[&'a str], number: u32) -> &'a str
    ensures { result.now ≡ unwrap_or (slice_get (map (λ k. k.now) names.now) number) [] }
{
    names.get(number as usize).copied().unwrap_or("")
}

// What was found is remembered.
fn remember(
    binders: &mut IndexMap<Local, Option<u32>>,
    local: Local,
    binder: Option<u32>,
) -> Result<(), Memory>
    ensures { OnOk result ((l : OneLocal) → lookup (locals.eq l) binders.new.entries ≡ (if locals.eq local l then Some binder else lookup (locals.eq l) binders.old.entries)) }
{
    binders.insert(local, binder)?;
    Ok(())
}

// The first statement that stands in a function and binds a name, found once.
fn found_once(
    binders: &mut IndexMap<Local, Option<u32>>,
    script: &Script,
    names: &[&str],
    local: Local,
) -> Result<Option<u32>, Memory>
    requires { IsNumbered (script_of script.now) }
    ensures found { IfOk result (λ binder. AreBinders (script_of script.now) (map (λ k. k.now) names.now) binders.old.entries
        → binder ≡ first_that_binds (Some local.function) (unwrap_or (slice_get (map (λ k. k.now) names.now) local.name) []) (statements (script_of script.now))) }
    ensures kept { OnOk result (AreBinders (script_of script.now) (map (λ k. k.now) names.now) binders.old.entries
        → AreBinders (script_of script.now) (map (λ k. k.now) names.now) binders.new.entries) }
{
    match binders.get(&local) {
        Some(binder) => Ok(*binder),
        None => {
            let binder = first_binder(script, local.function, text_at(names, local.name));
            remember(binders, local, binder)?;
            Ok(binder)
        }
    }
}

/// The first statement that stands in the function of another and binds a name. At module level there is none.
pub(crate) fn binder_of(
    binders: &mut IndexMap<Local, Option<u32>>,
    script: &Script,
    names: &[&str],
    asker: u32,
    name: u32,
) -> Result<Option<u32>, Memory>
    requires { IsNumbered (script_of script.now) }
    ensures found { IfOk result (λ binder. AreBinders (script_of script.now) (map (λ k. k.now) names.now) binders.old.entries
        → binder ≡ first_that_binds (function_of_stmt (script_of script.now) asker) (unwrap_or (slice_get (map (λ k. k.now) names.now) name) []) (statements (script_of script.now))) }
    ensures kept { OnOk result (AreBinders (script_of script.now) (map (λ k. k.now) names.now) binders.old.entries
        → AreBinders (script_of script.now) (map (λ k. k.now) names.now) binders.new.entries) }
{
    match script.function_of(asker) {
        Some(function) => found_once(binders, script, names, Local { function, name }),
        None => Ok(None),
    }
}
