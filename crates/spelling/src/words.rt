// Ranges, and what the language names.
ghost use Rattle.std.specs.Prelude.{◌≡◌, ◌-◌, ◌<◌, ◌++◌, IfOk, OnOk, codes, string_bytes};
ghost use Rattle.spelling.specs.Spelling.{step_words};
ghost use Rattle.py_model.specs.Names.{builtin_names, class_names};
ghost use Rattle.py_model.specs.Classes.{is_module as module_number};
ghost use Rattle.py_model.specs.Numbers.{int_text as int_words};
ghost use Rattle.py_model.specs.Printing.{named_in, module_names, angled as angled_text, builtin_text as builtin_words, range_text as range_words};

use crate::printed::int_text;
use std::alloc::{AllocError, Global};

/// The name of a class of the language, by its number.
pub fn class_word(number: u64) -> &'static str
    ensures { result.now ≡ named_in class_names number }
{
    match number {
        0 => "Exception",
        1 => "ArithmeticError",
        2 => "ZeroDivisionError",
        3 => "OverflowError",
        4 => "LookupError",
        5 => "IndexError",
        6 => "KeyError",
        7 => "NameError",
        8 => "UnboundLocalError",
        9 => "TypeError",
        10 => "ValueError",
        11 => "AttributeError",
        12 => "RuntimeError",
        13 => "NotImplementedError",
        14 => "RecursionError",
        15 => "OSError",
        16 => "FileNotFoundError",
        17 => "EOFError",
        18 => "AssertionError",
        _ => "?",
    }
}

// The name of a function of the language, by its number.
fn builtin_word(number: u64) -> &'static str
    ensures { result.now ≡ named_in builtin_names number }
{
    match number {
        0 => "abs",
        1 => "bool",
        2 => "chr",
        3 => "dict",
        4 => "enumerate",
        5 => "input",
        6 => "int",
        7 => "isinstance",
        8 => "len",
        9 => "list",
        10 => "max",
        11 => "min",
        12 => "open",
        13 => "ord",
        14 => "print",
        15 => "range",
        16 => "repr",
        17 => "sorted",
        18 => "str",
        19 => "sum",
        20 => "tuple",
        21 => "zip",
        _ => "?",
    }
}

// The name of a module, by its number.
fn module_word(number: u64) -> &'static str
    requires { 21 < number }
    ensures { result.now ≡ named_in module_names (number - 22) }
{
    match number {
        22 => "sys",
        23 => "time",
        24 => "random",
        _ => "?",
    }
}

// Whether a number names a module.
fn is_module(number: u64) -> bool
    ensures { result ≡ module_number number }
{
    21 < number && number < 25
}

/// A name in angles, behind what it names.
pub fn angled(alloc: Global, what: &str, name: &str) -> Result<String, AllocError>
    ensures { IfOk result (λ made. string_bytes made ≡ angled_text what.now name.now) }
{
    let mut made = String::from_str(alloc, "<")?;
    made.push_str(what)?;
    made.push_str(name)?;
    made.push_str(">")?;
    Ok(made)
}

/// A function, operation or module of the language, by its number.
pub fn builtin_text(alloc: Global, number: u64) -> Result<String, AllocError>
    ensures { IfOk result (λ made. string_bytes made ≡ builtin_words number) }
{
    if is_module(number) {
        angled(alloc, "module ", module_word(number))
    } else {
        angled(alloc, "built-in ", builtin_word(number))
    }
}

// The ends of a range.
fn range_ends(alloc: Global, start: i64, end: i64) -> Result<String, AllocError>
    ensures { IfOk result (λ made. string_bytes made ≡ int_words start ++ (codes ", " ++ int_words end)) }
{
    let mut made = int_text(alloc, start)?;
    made.push_str(", ")?;
    made.push_str(int_text(alloc, end)?.as_str())?;
    Ok(made)
}

// The step of a range behind its ends, where it is not 1.
fn push_step(alloc: Global, made: &mut String, step: i64) -> Result<(), AllocError>
    ensures { OnOk result (string_bytes made.new ≡ string_bytes made.old ++ step_words step) }
{
    if step == 1 {
        return Ok(());
    }
    made.push_str(", ")?;
    made.push_str(int_text(alloc, step)?.as_str())?;
    Ok(())
}

/// A range: its step is spelled where it is not 1.
pub fn range_text(alloc: Global, start: i64, end: i64, step: i64) -> Result<String, AllocError>
    ensures { IfOk result (λ made. string_bytes made ≡ range_words start end step) }
{
    let ends = range_ends(alloc, start, end)?;
    let mut made = String::from_str(alloc, "range(")?;
    made.push_str(ends.as_str())?;
    push_step(alloc, &mut made, step)?;
    made.push_str(")")?;
    Ok(made)
}
