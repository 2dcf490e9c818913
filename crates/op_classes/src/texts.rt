// Texts that the language itself names.
ghost use Rattle.std.specs.Prelude.{◌≡◌, List, ℕ, codes};
ghost use Rattle.op_work.specs.Work.{Comes, is_any, as_is};
ghost use Rattle.op_classes.specs.Texts.{IsTextNumber, bytes_by, text_in};
ghost use Rattle.py_model.specs.Classes.{method_of_class as plan_method};
ghost use Rattle.py_model.specs.Plan.{Plan};
ghost use Rattle.py_value.specs.Contents.{contents};

use crate::chains::method_of_class;
use op_work::{Stop, Work};
use prov_base::Pos;
use py_value::Value;
use std::alloc::Global;

// The number of a text. Another value than a text has none.
fn number_in(v: Value) -> Option<u32>
    ensures { result ≡ text_in v }
{
    match v {
        Value::Text(id) => Some(id),
        _ => None,
    }
}

/// The number of the text with these bytes. What `Work::text` answers is a text, which its clause does not say: the last arm is not met.
pub(crate) fn text_number(work: &mut Work, alloc: Global, words: &str) -> Result<u32, Stop>
    ensures { Comes IsTextNumber bytes_by (λ table (go : List ℕ → Plan). go words.now) work.old work.new result }
{
    let v = work.text(alloc, words)?;
    match number_in(v) {
        Some(id) => Ok(id),
        None => Err(Stop::Memory),
    }
}

/// The method `__init__` of a class or of the first of its bases that has one.
pub(crate) fn begin_method(work: &mut Work, alloc: Global, of: Value) -> Result<Option<Pos>, Stop>
    ensures { Comes is_any as_is (λ table. plan_method (codes "__init__") (contents table of)) work.old work.new result }
{
    let name = text_number(work, alloc, "__init__")?;
    method_of_class(work, name, of)
}
