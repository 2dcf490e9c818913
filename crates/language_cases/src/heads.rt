// What the lines of scripts begin, and where they are refused.
use crate::printing::{
    Style, show_bound, show_fault, show_fault_behind, show_names, show_part, show_simple,
    show_target, show_value,
};
use prov_base::{Name, Pos};
use py_expressions::{Fault, Stop};
use py_grammar::{Around, Context, Last, Limit, LineHead, What, read_head};
use py_lines::{Line, Token, lines};
use py_parser::{ParseFault, parse};
use std::alloc::{AllocError, Global};

/// Where a line stands.
#[derive(Clone, Copy)]
pub enum Standing {
    /// Directly in a script, behind such a statement.
    Script(Last),
    /// First in a class.
    Class,
    /// First in a function whose only parameter is `given`.
    Def,
    /// In such a function, behind a statement.
    LaterInDef,
}

impl Standing {
    // Where that is, as it is told to `read_head`.
    fn context(self) -> Context {
        let (around, last) = match self {
            Standing::Script(last) => (Around::module(), last),
            Standing::Class => (Around::in_class_suite(), Last::Nothing),
            Standing::Def | Standing::LaterInDef => (Around::in_def_suite(), Last::Nothing),
        };
        let may_declare = matches!(self, Standing::Def);
        Context {
            around,
            last,
            may_declare,
        }
    }

    // What stands before such a line in a script.
    fn before(self) -> &'static str {
        match self {
            Standing::Script(Last::Nothing) => "",
            Standing::Script(Last::Loop) => "while a:\n    pass\n",
            Standing::Script(Last::If) => "if a:\n    pass\n",
            Standing::Script(Last::Try) => "try:\n    pass\n",
            Standing::Script(Last::Handler) => "try:\n    pass\nexcept a:\n    pass\n",
            Standing::Script(Last::Every) => "try:\n    pass\nexcept:\n    pass\n",
            Standing::Class => "class A:\n    ",
            Standing::Def => "def f(given):\n    ",
            Standing::LaterInDef => "def f(given):\n    a\n    ",
        }
    }
}

/// Where a line stands, by its word.
pub fn standing_of(word: &str) -> Standing {
    match word {
        "loop" => Standing::Script(Last::Loop),
        "if" => Standing::Script(Last::If),
        "try" => Standing::Script(Last::Try),
        "handler" => Standing::Script(Last::Handler),
        "every" => Standing::Script(Last::Every),
        "class" => Standing::Class,
        "def" => Standing::Def,
        "later" => Standing::LaterInDef,
        _ => Standing::Script(Last::Nothing),
    }
}

fn show_named(out: &mut String, word: &str, name: &Name) -> Result<(), AllocError> {
    out.push_str(word)?;
    out.push_str(" ")?;
    out.push_str(name.as_str())?;
    Ok(())
}

fn show_what(alloc: Global, out: &mut String, what: &What) -> Result<(), AllocError> {
    match what {
        What::Simple(form) => show_simple(alloc, out, Style::Placed, form),
        What::If(test) => {
            out.push_str("if")?;
            show_part(alloc, out, Style::Placed, test)
        }
        What::Elif(test) => {
            out.push_str("elif")?;
            show_part(alloc, out, Style::Placed, test)
        }
        What::While(test) => {
            out.push_str("while")?;
            show_part(alloc, out, Style::Placed, test)
        }
        What::For(target, items) => {
            out.push_str("for ")?;
            show_target(alloc, out, Style::Placed, target)?;
            show_part(alloc, out, Style::Placed, items)
        }
        _ => show_other(alloc, out, what),
    }
}

fn show_other(alloc: Global, out: &mut String, what: &What) -> Result<(), AllocError> {
    match what {
        What::Else => out.push_str("else")?,
        What::Try => out.push_str("try")?,
        What::Except(class, bound) => {
            out.push_str("except")?;
            show_value(alloc, out, Style::Placed, class)?;
            show_bound(alloc, out, Style::Placed, bound)?;
        }
        What::With(value, bound) => {
            out.push_str("with")?;
            show_part(alloc, out, Style::Placed, value)?;
            show_bound(alloc, out, Style::Placed, bound)?;
        }
        What::Def(name, params) => {
            show_named(out, "def", name)?;
            show_names(out, params.list.as_slice())?;
        }
        What::Class(name, base) => {
            show_named(out, "class", name)?;
            show_value(alloc, out, Style::Placed, base)?;
        }
        What::Global(names) => {
            out.push_str("global")?;
            show_names(out, names.list.as_slice())?;
        }
        _ => {}
    }
    Ok(())
}

fn show_head(alloc: Global, out: &mut String, head: &LineHead) -> Result<(), AllocError> {
    show_what(alloc, out, &head.what)?;
    match &head.behind {
        None => Ok(()),
        Some(behind) => {
            out.push_str(" : ")?;
            show_simple(alloc, out, Style::Placed, &behind.form)
        }
    }
}

// The fault of `parse` in the last line of a script, as if that line began at 1:1.
fn show_parsed(alloc: Global, out: &mut String, script: &[u8]) -> Result<(), AllocError> {
    let Ok(lines) = lines(alloc, script) else {
        return out.push_str("no logical lines");
    };
    let Some(from) = last_place(lines.as_slice()) else {
        return out.push_str("no token");
    };
    match parse(alloc, &lines) {
        Ok(_) => out.push_str("no fault"),
        Err(fault) => {
            let shown = show_fault_behind(alloc, fault, from)?;
            out.push_str(shown.as_str())
        }
    }
}

// Where the last of the lines begins.
fn last_place(lines: &[Line]) -> Option<Pos> {
    let line = lines.last()?;
    let first = line.tokens.as_slice().first()?;
    Some(first.at)
}

// The fault of a line that is refused where it stands.
fn show_refused(
    alloc: Global,
    out: &mut String,
    standing: Standing,
    text: &[u8],
) -> Result<(), AllocError> {
    let mut script = Vec::new(alloc);
    script.extend_from_slice(standing.before().as_bytes())?;
    script.extend_from_slice(text)?;
    show_parsed(alloc, out, script.as_slice())
}

// The place of the one of these tokens that so many stand behind.
fn place_before(tokens: &[Token], behind: usize) -> Option<Pos> {
    let index = tokens.len().checked_sub(behind)?.checked_sub(1)?;
    let token = tokens.get(index)?;
    Some(token.at)
}

// The fault at which `read_head` stopped in these tokens.
fn fault_of(tokens: &[Token], stop: Stop) -> Option<ParseFault> {
    match stop {
        Stop::Here(Fault::Unexpected(behind)) => {
            let at = place_before(tokens, behind)?;
            Some(ParseFault::Unexpected(at))
        }
        Stop::Here(Fault::TooDeep(at)) => Some(ParseFault::TooDeep(at)),
        Stop::Here(Fault::TooMany(at)) => Some(ParseFault::TooMany(at)),
        Stop::Here(Fault::Memory) => Some(ParseFault::Memory),
        Stop::End => {
            let at = place_before(tokens, 0)?;
            Some(ParseFault::Unexpected(at))
        }
    }
}

fn show_stop(
    alloc: Global,
    out: &mut String,
    tokens: &[Token],
    stop: Stop,
) -> Result<(), AllocError> {
    match fault_of(tokens, stop) {
        None => out.push_str("no token"),
        Some(fault) => {
            let shown = show_fault(alloc, fault)?;
            out.push_str(shown.as_str())
        }
    }
}

// The parameters of the function around.
fn given(alloc: Global, context: Context) -> Result<Vec<Name>, AllocError> {
    let mut given = Vec::new(alloc);
    if context.around.in_function {
        given.push(Name::of(String::from_str(alloc, "given")?))?;
    }
    Ok(given)
}

// Of a line that is refused the fault is shown that `parse` finds, but behind a limit, which is told to `read_head` alone, where
// that stops.
fn show_line(
    alloc: Global,
    out: &mut String,
    text: &[u8],
    line: &Line,
    asked: (Standing, Option<Limit>),
) -> Result<(), AllocError> {
    let tokens = line.tokens.as_slice();
    let (standing, limit) = asked;
    let context = standing.context();
    let given = given(alloc, context)?;
    match read_head(alloc, tokens, context, given.as_slice(), limit) {
        Ok(head) => show_head(alloc, out, &head),
        Err(stop) => match limit {
            Some(_) => show_stop(alloc, out, tokens, stop),
            None => show_refused(alloc, out, standing, text),
        },
    }
}

/// What the first line of a text is read as where it stands. What stands behind its `:` is shown behind ` : `.
pub fn show_first_line(
    alloc: Global,
    out: &mut String,
    text: &[u8],
    standing: Standing,
    limit: Option<Limit>,
) -> Result<(), AllocError> {
    match lines(alloc, text) {
        Ok(lines) => match lines.as_slice().first() {
            Some(line) => show_line(alloc, out, text, line, (standing, limit)),
            None => out.push_str("no line"),
        },
        Err(_) => out.push_str("no logical lines"),
    }
}
