// Which operations are those on atoms, how one begins, and what is told of it.
ghost use Rattle.std.specs.Prelude.{◌≡◌, false, None, IsTrue};
ghost use Rattle.op_atoms.specs.Answers.{is_atomic as is_atomic_number, is_operator as is_operator_number, is_function as is_function_number, is_method as is_method_number};
ghost use Rattle.op_atoms.specs.Telling.{IsTold};
ghost use Rattle.py_model.specs.Quiet.{may_ask};

use crate::Atomic;
use op_work::{Stop, Work};
use prov_base::Memory;
use py_model::Answer;
use py_value::Value;

// Whether the operation with this number is one on atoms.
#[tactic(auto, using(crate::proofs::Quieting::atomic_asks_nothing))]
pub(crate) fn is_atomic(no: u8) -> bool
    ensures atomic { result ≡ is_atomic_number no }
    ensures quiet { IsTrue result → may_ask no ≡ false }
{
    is_operator(no) || is_function(no) || is_method(no)
}

// Whether the number is that of one of these operators and displays.
fn is_operator(no: u8) -> bool
    ensures { result ≡ is_operator_number no }
{
    no == 0 || (2 <= no && no <= 22) || (25 <= no && no <= 27)
}

// Whether the number is that of one of these functions.
fn is_function(no: u8) -> bool
    ensures { result ≡ is_function_number no }
{
    (50 <= no && no <= 52)
        || (56 <= no && no <= 58)
        || (60 <= no && no <= 61)
        || no == 63
        || (65 <= no && no <= 66)
        || (68 <= no && no <= 70)
}

// Whether the number is that of one of these methods.
fn is_method(no: u8) -> bool
    ensures { result ≡ is_method_number no }
{
    (91 <= no && no <= 93) || (95 <= no && no <= 104)
}

// An operation begins, with as many steps as can be counted.
pub(crate) fn begin(work: &mut Work)
    ensures fresh { work.new.made ≡ None }
    ensures unsaid { work.new.note ≡ None }
    ensures store { work.new.store ≡ work.old.store }
    ensures values { work.new.values ≡ work.old.values }
{
    let _ = work.begin(u32::MAX);
}

// What is told of an operation that came to its end or stopped.
pub(crate) fn told(came: Result<Answer, Stop>) -> Result<Atomic, Memory>
    ensures { IsTold came result }
{
    match came {
        Ok(Answer::Value(v)) => Ok(Atomic::Gives(v)),
        Err(Stop::Raises(class, Value::Text(text))) => Ok(Atomic::Raises(class, text)),
        _ => Err(Memory),
    }
}
