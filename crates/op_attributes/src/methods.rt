// The methods of the language, by their names.
ghost use Rattle.std.specs.Prelude.{◌≡◌, None};
ghost use Rattle.op_attributes.specs.Methods.{numbered, given};
ghost use Rattle.op_work.specs.Work.{Ends};
ghost use Rattle.py_model.specs.Classes.{list_methods, dict_methods, text_methods, file_methods, time_methods, random_methods};

use op_work::{Exception, Stop, Work};
use py_model::Answer;
use py_value::Value;
use std::alloc::Global;

/// The number of a method of a list, by its name.
pub(crate) fn list_method(name: &str) -> Option<u64>
    ensures { result ≡ numbered 80 list_methods name.now }
{
    match name {
        "append" => Some(80),
        "extend" => Some(81),
        "insert" => Some(82),
        "pop" => Some(83),
        "index" => Some(84),
        "reverse" => Some(85),
        "sort" => Some(86),
        _ => None,
    }
}

/// The number of a method of a dictionary, by its name.
pub(crate) fn dict_method(name: &str) -> Option<u64>
    ensures { result ≡ numbered 87 dict_methods name.now }
{
    match name {
        "get" => Some(87),
        "items" => Some(88),
        "keys" => Some(89),
        "values" => Some(90),
        _ => None,
    }
}

/// The number of a method of a text, by its name.
pub(crate) fn text_method(name: &str) -> Option<u64>
    ensures { result ≡ numbered 91 text_methods name.now }
{
    match name {
        "strip" => Some(91),
        "lstrip" => Some(92),
        "rstrip" => Some(93),
        "split" => Some(94),
        "join" => Some(95),
        "replace" => Some(96),
        "find" => Some(97),
        "startswith" => Some(98),
        "endswith" => Some(99),
        "upper" => Some(100),
        "lower" => Some(101),
        "isdigit" => Some(102),
        "ljust" => Some(103),
        "rjust" => Some(104),
        _ => None,
    }
}

/// The number of a method of a file, by its name.
pub(crate) fn file_method(name: &str) -> Option<u64>
    ensures { result ≡ numbered 105 file_methods name.now }
{
    match name {
        "read" => Some(105),
        "readline" => Some(106),
        "write" => Some(107),
        "close" => Some(108),
        _ => None,
    }
}

/// The number of a function of the module `time`, by its name.
pub(crate) fn time_method(name: &str) -> Option<u64>
    ensures { result ≡ numbered 109 time_methods name.now }
{
    match name {
        "time_ns" => Some(109),
        _ => None,
    }
}

/// The number of a function of the module `random`, by its name.
pub(crate) fn random_method(name: &str) -> Option<u64>
    ensures { result ≡ numbered 110 random_methods name.now }
{
    match name {
        "randint" => Some(110),
        "randrange" => Some(111),
        _ => None,
    }
}

/// A method of the language is the answer, where there is one.
pub(crate) fn operation(work: &mut Work, alloc: Global, number: Option<u64>) -> Result<Answer, Stop>
    requires first { work.old.made ≡ None }
    ensures { Ends (λ table. given number) work.old work.new result }
{
    match number {
        Some(method) => Ok(Answer::Value(Value::Builtin(method))),
        None => Err(work.fault(alloc, Exception::NotImplementedError, "not in this profile")),
    }
}
