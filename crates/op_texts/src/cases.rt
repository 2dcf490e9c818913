// Texts with their letters in one case.
ghost use Rattle.std.specs.Prelude.{◌≡◌, map, None};
ghost use Rattle.op_work.specs.Work.{Ends};
ghost use Rattle.py_model.specs.TextMethods.{upper_plan, lower_plan};
ghost use Rattle.py_value.specs.Contents.{contents};
ghost use Rattle.py_value.specs.Values.{AreNamed};

use crate::answers::gives_text;
use crate::operands::one_text;
use op_work::{Stop, Work};
use py_model::Answer;
use py_value::Value;
use std::alloc::Global;

/// `upper` (100): the text with the letters of ASCII in upper case.
pub fn upper(work: &mut Work, alloc: Global, operands: &[Value]) -> Result<Answer, Stop>
    requires named { AreNamed work.old.values operands.now }
    requires fresh { work.old.made ≡ None }
    ensures { Ends (λ table. upper_plan (map (contents table) operands.now)) work.old work.new result }
{
    let text = one_text(work, alloc, operands)?;
    let made = work.text_of(text).to_ascii_uppercase(alloc)?;
    gives_text(work, alloc, made.as_str())
}

/// `lower` (101): the text with the letters of ASCII in lower case.
pub fn lower(work: &mut Work, alloc: Global, operands: &[Value]) -> Result<Answer, Stop>
    requires named { AreNamed work.old.values operands.now }
    requires fresh { work.old.made ≡ None }
    ensures { Ends (λ table. lower_plan (map (contents table) operands.now)) work.old work.new result }
{
    let text = one_text(work, alloc, operands)?;
    let made = work.text_of(text).to_ascii_lowercase(alloc)?;
    gives_text(work, alloc, made.as_str())
}
