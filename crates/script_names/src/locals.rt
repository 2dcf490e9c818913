// Which names are local in a function, and which function has a number.
ghost use Rattle.std.specs.Prelude.{◌≡◌, map};
ghost use Rattle.std.specs.List.{list_any};
ghost use Rattle.std.specs.Option.{option_map};
ghost use Rattle.std.specs.Str.{bytes_eq};
ghost use Rattle.py_tree.specs.Binds.{bound_is, form_binds, handlers_bind, target_binds, targets_bind};
ghost use Rattle.py_tree.specs.Erasure.{branches_of, else_tree, form_of, handlers_of, script_of, stmt_of, suite_of, target_of, targets_of};
ghost use Rattle.py_tree.specs.Functions.{is_local, branches_bind, else_binds, handler_suites_bind, inner_binds, stmt_binds, suite_binds};
ghost use Rattle.script_names.specs.Scopes.{activation_by, function_in, local_in, local_by, local_at};
ghost use Rattle.prov_base.specs.declared.place.Pos.{Pos};

use prov_base::Name;
use py_tree::{
    Bound, Branches, Form, Globals, Handlers, Params, Script, Stmt, Suite, Target, Targets,
};

/// Whether one of these is the name.
fn have_name(names: &[Name], name: &str) -> bool
    ensures { result ≡ list_any (bytes_eq name.now) names.now }
{
    names.iter().any(|own| name == own.as_str())
}

/// Whether a target binds the name: as the name itself or in a tuple.
#[cycle(target_binds)]
#[tactic(auto, using(py_tree::proofs::TargetTrees::target_trees))]
fn target_binds(target: &Target, name: &str) -> bool
    ensures { result ≡ target_binds (target_of target.now) name.now }
{
    match target {
        Target::Var(_, own) => own.as_str() == name,
        Target::Part(_, _, _) => false,
        Target::Field(_, _, _) => false,
        Target::Many(targets) => targets_bind(targets, name),
    }
}

/// Whether one of these targets binds the name.
#[cycle(target_binds)]
#[tactic(auto, using(py_tree::proofs::TargetTrees::target_trees))]
fn targets_bind(targets: &Targets, name: &str) -> bool
    ensures { result ≡ targets_bind (targets_of targets.now) name.now }
{
    for target in &targets.list {
        if target_binds(target, name) {
            return true;
        }
    }
    false
}

/// Whether this is the name after `as`.
fn bound_is(bound: &Option<Bound>, name: &str) -> bool
    ensures { result ≡ bound_is bound.now name.now }
{
    match bound {
        None => false,
        Some(bound) => bound.name.as_str() == name,
    }
}

/// Whether one of these handlers has the name after its `as`.
fn handlers_bind(handlers: &Handlers, name: &str) -> bool
    ensures { result ≡ handlers_bind (handlers_of handlers.now) name.now }
{
    for (_, bound, _) in &handlers.list {
        if bound_is(bound, name) {
            return true;
        }
    }
    false
}

/// Whether a form of statement binds the name itself.
#[tactic(auto, using(py_tree::proofs::StmtTrees::form_trees))]
fn form_binds(form: &Form, name: &str) -> bool
    ensures { result ≡ form_binds (form_of form.now) name.now }
{
    match form {
        Form::Assign(target, _) => target_binds(target, name),
        Form::Aug(target, _, _, _) => target_binds(target, name),
        Form::Del(target) => target_binds(target, name),
        Form::Import(own) => own.as_str() == name,
        Form::For(target, _, _) => target_binds(target, name),
        Form::Try(_, handlers) => handlers_bind(handlers, name),
        Form::With(_, bound, _) => bound_is(bound, name),
        Form::Def(own, _, _, _) => own.as_str() == name,
        Form::Class(own, _, _) => own.as_str() == name,
        _ => false,
    }
}

/// Whether a statement of the suite, or one in the suites of these, binds the name.
#[cycle(suite_binds)]
#[tactic(auto, using(py_tree::proofs::StmtTrees::form_trees))]
fn suite_binds(suite: &Suite, name: &str) -> bool
    ensures { result ≡ suite_binds (suite_of suite.now) name.now }
{
    for stmt in &suite.list {
        if stmt_binds(stmt, name) {
            return true;
        }
    }
    false
}

/// Whether a statement, or one in its suites, binds the name.
#[cycle(suite_binds)]
#[tactic(auto, using(py_tree::proofs::StmtTrees::stmt_tree))]
fn stmt_binds(stmt: &Stmt, name: &str) -> bool
    ensures { result ≡ stmt_binds (stmt_of stmt.now) name.now }
{
    form_binds(&*stmt.form, name) || inner_binds(&*stmt.form, name)
}

/// Whether a statement in the suites of this form binds the name. A `def` and a `class` have names of their own.
#[cycle(suite_binds)]
#[tactic(auto, using(py_tree::proofs::StmtTrees::form_trees))]
fn inner_binds(form: &Form, name: &str) -> bool
    ensures { result ≡ inner_binds (form_of form.now) name.now }
{
    match form {
        Form::If(branches, orelse) => branches_bind(branches, name) || else_binds(orelse, name),
        Form::While(_, body) => suite_binds(body, name),
        Form::For(_, _, body) => suite_binds(body, name),
        Form::Try(body, handlers) => suite_binds(body, name) || handler_suites_bind(handlers, name),
        Form::With(_, _, body) => suite_binds(body, name),
        _ => false,
    }
}

/// Whether the suite of a branch binds the name.
#[cycle(suite_binds)]
#[tactic(auto, using(py_tree::proofs::StmtTrees::form_trees))]
fn branches_bind(branches: &Branches, name: &str) -> bool
    ensures { result ≡ branches_bind (branches_of branches.now) name.now }
{
    for (_, body) in &branches.list {
        if suite_binds(body, name) {
            return true;
        }
    }
    false
}

/// Whether the suite after `else`, if it is there, binds the name.
#[cycle(suite_binds)]
#[tactic(auto, using(py_tree::proofs::StmtTrees::form_trees))]
fn else_binds(orelse: &Option<Suite>, name: &str) -> bool
    ensures { result ≡ else_binds (else_tree (option_map suite_of orelse.now)) name.now }
{
    match orelse {
        None => false,
        Some(body) => suite_binds(body, name),
    }
}

/// Whether the suite of a handler binds the name.
#[cycle(suite_binds)]
#[tactic(auto, using(py_tree::proofs::StmtTrees::form_trees))]
fn handler_suites_bind(handlers: &Handlers, name: &str) -> bool
    ensures { result ≡ handler_suites_bind (handlers_of handlers.now) name.now }
{
    for (_, _, body) in &handlers.list {
        if suite_binds(body, name) {
            return true;
        }
    }
    false
}

/// Whether a name is local in a function: it is not declared global, and it is a parameter or bound in the body.
fn is_local(params: &Params, globals: &Globals, body: &Suite, name: &str) -> bool
    ensures { (at : Pos) → result ≡ is_local (record { place = at; params = params.now.list.items; globals = globals.now.list.items; body = suite_of body.now }) name.now }
{
    !have_name(globals.list.as_slice(), name)
        && (have_name(params.list.as_slice(), name) || suite_binds(body, name))
}

/// Whether the name is local in the function with this number, where the suite has it or one of its classes has it.
#[cycle(local_in)]
#[tactic(auto, using(py_tree::proofs::StmtTrees::form_trees))]
fn local_in(suite: &Suite, number: u32, name: &str) -> Option<bool>
    ensures { result ≡ local_in number name.now (suite_of suite.now) }
{
    for stmt in &suite.list {
        match local_by(stmt, number, name) {
            None => {}
            Some(found) => return Some(found),
        }
    }
    None
}

/// The same of a statement.
#[cycle(local_in)]
#[tactic(auto, using(py_tree::proofs::StmtTrees::stmt_tree))]
fn local_by(stmt: &Stmt, number: u32, name: &str) -> Option<bool>
    ensures { result ≡ local_by number name.now (stmt_of stmt.now) }
{
    local_at(stmt.no, &*stmt.form, number, name)
}

/// The same of the form of a statement with its own number.
#[cycle(local_in)]
#[tactic(auto, using(py_tree::proofs::StmtTrees::form_trees))]
fn local_at(own: u32, form: &Form, number: u32, name: &str) -> Option<bool>
    ensures { (at : Pos) → result ≡ local_at number name.now own at (form_of form.now) }
{
    match form {
        Form::Def(_, params, globals, body) => {
            if own == number {
                Some(is_local(params, globals, body, name))
            } else {
                None
            }
        }
        Form::Class(_, _, body) => local_in(body, number, name),
        _ => None,
    }
}

/// The activation of a name in the function whose `def` has this number, or at module level: the given one where the name is local, and else
/// 0, the module's. A number that no `def` has is the module's too.
pub fn activation_of(script: &Script, function: Option<u32>, activation: u32, name: &str) -> u32
    ensures { result ≡ activation_by (function_in (script_of script.now) function) activation name.now }
{
    let Some(number) = function else {
        return 0;
    };
    match local_in(&script.body, number, name) {
        None => 0,
        Some(is_local) => { if is_local { activation } else { 0 } }
    }
}
