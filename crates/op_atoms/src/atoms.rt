// Whether values are atoms: none is, or holds in tuples, an object, a function or a class of a script.
ghost use Rattle.std.specs.Prelude.{◌≡◌, ◌<◌, ◌≤◌, ◌&&◌, length, slice_get, Some, IfOk, map};
ghost use Rattle.std.specs.List.{list_all};
ghost use Rattle.op_atoms.specs.Atoms.{is_atom as is_atomic};
ghost use Rattle.op_atoms.specs.Marks.{marked as mark_of, AreMarks};
ghost use Rattle.py_value.specs.Contents.{contents};
ghost use Rattle.py_value.specs.Values.{IsNamed, AreNamed};
ghost use Rattle.py_value.specs.declared.value.Value.TheVariants.{Tuple};

use prov_base::Memory;
use py_value::{Value, Values, tuples_are_their_parts};
use std::alloc::Global;

// Whether all values are atoms.
pub(crate) fn are_atoms(values: &Values, alloc: Global, operands: &[Value]) -> Result<bool, Memory>
    requires { AreNamed values.now operands.now }
    ensures { IfOk result (λ all. all ≡ list_all (λ v. is_atomic (contents values.now v)) operands.now) }
{
    for v in operands.iter() {
        if !is_atom(values, alloc, *v)? {
            return Ok(false);
        }
    }
    Ok(true)
}

// Whether a value is an atom.
fn is_atom(values: &Values, alloc: Global, v: Value) -> Result<bool, Memory>
    requires { IsNamed values.now v }
    ensures { IfOk result (λ atom. atom ≡ is_atomic (contents values.now v)) }
{
    match v {
        Value::Tuple(id) => {
            let marks = marks_before(values, alloc, id)?;
            Ok(is_atom_tuple(values, &marks, id))
        }
        Value::Fn(_) => Ok(false),
        Value::Class(_) => Ok(false),
        Value::Object(_) => Ok(false),
        _ => Ok(true),
    }
}

// Which of the tuples before one are atoms. The parts of a tuple stand before it.
fn marks_before(values: &Values, alloc: Global, id: u32) -> Result<Vec<bool>, Memory>
    requires { id < length values.now.tuples }
    ensures marks { IfOk result (λ marks. AreMarks values.now marks.items) }
    ensures count { IfOk result (λ marks. length marks.items ≡ id) }
{
    let mut marks = Vec::new(alloc);
    for before in 0..id {
        let atom = is_atom_tuple(values, &marks, before);
        marks.push(atom)?;
    }
    Ok(marks)
}

// Whether a tuple is an atom, by those before it.
fn is_atom_tuple(values: &Values, marks: &[bool], id: u32) -> bool
    requires within { id < length values.now.tuples }
    requires count { length marks.now ≡ id }
    requires marks { AreMarks values.now marks.now }
    ensures { result ≡ is_atomic (contents values.now (Tuple id)) }
{
    tuples_are_their_parts();
    are_marked(marks, values.tuple_of(id))
}

// Whether all values are atoms, by the marks of the tuples.
fn are_marked(marks: &[bool], items: &[Value]) -> bool
    ensures { result ≡ list_all (mark_of marks.now) items.now }
{
    items.iter().all(|v| marked(marks, *v))
}

// Whether a value is an atom, by the marks of the tuples.
fn marked(marks: &[bool], v: Value) -> bool
    ensures { result ≡ mark_of marks.now v }
{
    match v {
        Value::Tuple(id) => marks.get(id as usize).copied().unwrap_or(false),
        Value::Fn(_) => false,
        Value::Class(_) => false,
        Value::Object(_) => false,
        _ => true,
    }
}
