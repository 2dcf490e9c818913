// Lines of the input.
ghost use Rattle.std.specs.Prelude.{◌≡◌, None, Some, map, option_copied, string_bytes, OnOk};
ghost use Rattle.answer_source.specs.Sources.{given_seen};
ghost use Rattle.capture.specs.declared.answer.Ask.TheVariants.{Line};
ghost use Rattle.op_devices.specs.Asking.{Known, answered_by};
ghost use Rattle.op_devices.specs.Given.{asks, line_given, of_prompt, IsGiven};
ghost use Rattle.op_files.specs.Operands.{text_in as text_in_value};
ghost use Rattle.op_work.specs.Work.{Comes, Ends, is_any};
ghost use Rattle.py_model.specs.Files.{input_plan, input_with};
ghost use Rattle.py_model.specs.Plan.{a_line};
ghost use Rattle.py_value.specs.Contents.{contents};
ghost use Rattle.py_value.specs.Values.{AreNamed};

use capture::Given;
use op_numbers::value_answer;
use op_texts::size;
use op_work::{Exception, Stop, Work};
use py_model::Answer;
use py_value::Value;
use std::alloc::Global;
use std::str;

// A line that was given, which is counted, where it is a text.
fn text_answer(work: &mut Work, alloc: Global, bytes: &[u8]) -> Result<Answer, Stop>
    requires fresh { work.old.made ≡ None }
    ensures { Ends (λ table. line_given (a_line bytes.now)) work.old work.new result }
{
    let Ok(line) = str::from_utf8(bytes) else {
        return Err(work.fault(alloc, Exception::ValueError, "not UTF-8"));
    };
    work.count(size(line))?;
    let text = work.text(alloc, line)?;
    value_answer(work, text)
}

// The line that was given.
fn line_answer(work: &mut Work, alloc: Global, given: &Given) -> Result<Answer, Stop>
    requires fresh { work.old.made ≡ None }
    ensures { Ends (λ table. line_given (given_seen given.now)) work.old work.new result }
{
    match given {
        Given::Line(bytes) => text_answer(work, alloc, bytes.as_slice()),
        Given::End => Err(work.fault(alloc, Exception::EOFError, "end of input")),
        Given::Number(_) => Err(work.fault(alloc, Exception::OSError, "device failed")),
        Given::Word(_) => Err(work.fault(alloc, Exception::OSError, "device failed")),
        Given::Failed => Err(work.fault(alloc, Exception::OSError, "device failed")),
    }
}

/// The number of the text that a value is.
pub(crate) fn text_in(v: Value) -> Option<u32>
    ensures { result ≡ text_in_value v }
{
    match v {
        Value::Text(id) => Some(id),
        _ => None,
    }
}

// The prompt, which is empty where there is none.
fn prompt(work: &mut Work, alloc: Global, operands: &[Value]) -> Result<String, Stop>
    requires { AreNamed work.old.values operands.now }
    ensures comes { Comes is_any (λ table text. string_bytes text) (λ table. of_prompt (map (contents table) operands.now)) work.old work.new result }
    ensures asks { OnOk result (asks 55 operands.now ≡ Some Line) }
{
    if operands.is_empty() {
        return Ok(String::new(alloc));
    }
    if operands.len() != 1 {
        return Err(work.fault(alloc, Exception::TypeError, "wrong number of arguments"));
    }
    let Some(id) = text_in(operands[0]) else {
        return Err(work.fault(alloc, Exception::TypeError, "wrong kind of value"));
    };
    let text = String::from_str(alloc, work.text_of(id))?;
    Ok(text)
}

// The prompt is printed and counted, and the line that was given is the answer.
fn line_behind(
    work: &mut Work,
    alloc: Global,
    prompt: &str,
    given: Option<&Given>,
) -> Result<Answer, Stop>
    requires fresh { work.old.made ≡ None }
    ensures { (k : Known) → IsGiven k (Some Line) (option_copied given.entry) → Ends (λ table. answered_by k (input_with prompt.now)) work.old work.new result }
{
    work.print(prompt.as_bytes())?;
    work.count(size(prompt))?;
    let Some(given) = given else {
        return Err(Stop::Memory);
    };
    line_answer(work, alloc, given)
}

/// `input` (55): the prompt is printed and counted, and the line that was given is the answer.
pub fn input(
    work: &mut Work,
    alloc: Global,
    operands: &[Value],
    given: Option<&Given>,
) -> Result<Answer, Stop>
    requires named { AreNamed work.old.values operands.now }
    requires fresh { work.old.made ≡ None }
    ensures { (k : Known) → IsGiven k (asks 55 operands.now) (option_copied given.entry) → Ends (λ table. answered_by k (input_plan (map (contents table) operands.now))) work.old work.new result }
{
    let prompt = prompt(work, alloc, operands)?;
    line_behind(work, alloc, prompt.as_str(), given)
}
