// An operation on atoms.
ghost use Rattle.std.specs.Prelude.{◌≡◌, ◌↔◌, ◌&&◌, false, IfOk};
ghost use Rattle.std.specs.List.{list_all};
ghost use Rattle.op_atoms.specs.Answers.{AnswersAs, is_atomic as is_atomic_number};
ghost use Rattle.op_atoms.specs.Atoms.{is_atom as is_atomic_value};
ghost use Rattle.op_atoms.specs.declared.atomic.Atomic.TheVariants.{NotAtomic};
ghost use Rattle.op_table.specs.Table.{planned};
ghost use Rattle.op_work.specs.Work.{Extends};
ghost use Rattle.py_model.specs.Told.{IsNamedOp};
ghost use Rattle.py_value.specs.Contents.{contents};
ghost use Rattle.py_value.specs.Values.{AreNamed};

use crate::Atomic;
use crate::atoms::are_atoms;
use crate::telling::{begin, is_atomic, told};
use op_work::Work;
use prov_base::Memory;
use py_model::Op;
use py_value::Value;
use std::alloc::Global;

/// What an operation on atoms answers, by its plan. It is none exactly where its number is none of these, or an operand is no atom.
pub fn atom(work: &mut Work, alloc: Global, op: Op, operands: &[Value]) -> Result<Atomic, Memory>
    requires op { IsNamedOp work.old.values op }
    requires named { AreNamed work.old.values operands.now }
    ensures answers { AnswersAs (planned op operands.now) work.old work.new result }
    ensures atomic { IfOk result (λ answer. (answer ≡ NotAtomic)
        ↔ ((is_atomic_number op.no && list_all (λ v. is_atomic_value (contents work.old.values v)) operands.now) ≡ false)) }
    ensures store { work.new.store ≡ work.old.store }
    ensures extends { Extends work.old.values work.new.values }
{
    if !is_atomic(op.no) {
        return Ok(Atomic::NotAtomic);
    }
    if !are_atoms(work.values(), alloc, operands)? {
        return Ok(Atomic::NotAtomic);
    }
    begin(work);
    told(op_table::perform(work, alloc, op, operands))
}
