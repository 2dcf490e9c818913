// What is asked of the text at hand.
use crate::heads::{Standing, show_first_line, standing_of};
use crate::logical::{count_lines, show_lines, show_spans};
use crate::printing::Style;
use crate::scripts::{Asked, show_script};
use crate::tables::{show_refused, show_set, show_spelled_text};
use crate::texts::{bytes_of, number};
use py_grammar::Limit;
use std::alloc::{AllocError, Global};

/// What a section asks.
#[derive(Clone, Copy)]
enum Section {
    /// Nothing.
    Nothing,
    /// The logical lines of a text.
    Lines,
    /// How many they are.
    LineCount,
    /// The bytes of lines and tokens.
    Spans,
    /// What the first line of a text is read as, where it stands.
    Head(Standing, Option<Limit>),
    /// What the tokens spell as a target.
    Spelled,
    /// The place of a refused form, behind so many tokens of the last line.
    Refused,
    /// How many statements a script has, or its fault.
    Count,
    /// The statements of a script.
    Tree(Style),
    /// The same, and what is left of them where only some stay.
    Delete(Style),
    /// The same, what is left of the text, and its statements.
    Cut,
    /// How many statements a script has, and what is left of it where only each so manieth stays.
    Thin,
    /// What each statement stands in, and which of some names it binds.
    Owners,
    /// A set of so many statements.
    Set,
}

fn limit_of(word: &str) -> Option<Limit> {
    match word {
        "number" => Some(Limit::Number),
        "depth" => Some(Limit::Depth),
        _ => None,
    }
}

fn style_of(word: &str) -> Style {
    match word {
        "placed" => Style::Placed,
        _ => Style::Plain,
    }
}

fn section_of(words: &str) -> Section {
    let (name, words) = words.split_once(' ').unwrap_or((words, ""));
    let (first, second) = words.split_once(' ').unwrap_or((words, ""));
    match name {
        "lines" => Section::Lines,
        "line-count" => Section::LineCount,
        "spans" => Section::Spans,
        "head" => Section::Head(standing_of(first), limit_of(second)),
        "spelled" => Section::Spelled,
        "refused" => Section::Refused,
        "count" => Section::Count,
        "tree" => Section::Tree(style_of(first)),
        "delete" => Section::Delete(style_of(first)),
        "cut" => Section::Cut,
        "thin" => Section::Thin,
        "owners" => Section::Owners,
        "set" => Section::Set,
        _ => Section::Nothing,
    }
}

/// A section, and the text at hand.
#[derive(Drop)]
pub struct Bench {
    section: Section,
    text: Vec<u8>,
    is_whole: bool,
}

impl Bench {
    pub fn new(alloc: Global) -> Bench {
        Bench {
            section: Section::Nothing,
            text: Vec::new(alloc),
            is_whole: false,
        }
    }

    /// What stands behind a row.
    pub fn answer(&mut self, alloc: Global, row: &str) -> Result<Option<String>, AllocError> {
        if let Some(words) = row.strip_prefix("== ") {
            self.section = section_of(words);
            return Ok(None);
        }
        if let Some(words) = row.strip_prefix("=") {
            return self.more(alloc, words.trim());
        }
        if let Some(text) = row.strip_prefix("|") {
            self.add(alloc, text)?;
            self.is_whole = true;
            return self.whole(alloc);
        }
        self.add_piece(alloc, row)?;
        Ok(None)
    }

    fn add(&mut self, alloc: Global, text: &str) -> Result<(), AllocError> {
        if self.is_whole {
            self.text.clear();
            self.is_whole = false;
        }
        let bytes = bytes_of(alloc, text)?;
        self.text.extend_from_slice(bytes.as_slice())
    }

    fn add_piece(&mut self, alloc: Global, row: &str) -> Result<(), AllocError> {
        if let Some(text) = row.strip_prefix("+") {
            self.add(alloc, text)?;
            self.text.push(b'\n')?;
        }
        if let Some(text) = row.strip_prefix("*") {
            let (times, piece) = text.split_once(' ').unwrap_or((text, ""));
            self.repeat(alloc, number(times), piece)?;
        }
        if let Some(text) = row.strip_prefix(">") {
            let (times, piece) = text.split_once(' ').unwrap_or((text, ""));
            self.nest(alloc, number(times), piece)?;
        }
        Ok(())
    }

    fn repeat(&mut self, alloc: Global, times: u32, piece: &str) -> Result<(), AllocError> {
        for _ in 0..times {
            self.add(alloc, piece)?;
        }
        Ok(())
    }

    fn nest(&mut self, alloc: Global, times: u32, piece: &str) -> Result<(), AllocError> {
        for depth in 0..times {
            self.repeat(alloc, depth, " ")?;
            self.add(alloc, piece)?;
        }
        self.repeat(alloc, times, " ")
    }

    // What is told of the text at once.
    fn whole(&self, alloc: Global) -> Result<Option<String>, AllocError> {
        let text = self.text.as_slice();
        let mut out = String::new(alloc);
        match self.section {
            Section::Nothing | Section::Refused | Section::Set => return Ok(None),
            Section::Lines => show_lines(alloc, &mut out, text)?,
            Section::LineCount => count_lines(alloc, &mut out, text)?,
            Section::Spans => show_spans(alloc, &mut out, text)?,
            Section::Head(standing, limit) => {
                show_first_line(alloc, &mut out, text, standing, limit)?;
            }
            Section::Spelled => show_spelled_text(alloc, &mut out, text)?,
            Section::Count | Section::Thin => show_script(alloc, &mut out, text, Asked::Count)?,
            Section::Tree(style) | Section::Delete(style) => {
                show_script(alloc, &mut out, text, Asked::Tree(style))?;
            }
            Section::Cut => show_script(alloc, &mut out, text, Asked::Tree(Style::Plain))?,
            Section::Owners => show_script(alloc, &mut out, text, Asked::Owners)?,
        }
        Ok(Some(out))
    }

    // What more is asked of it.
    fn more(&self, alloc: Global, words: &str) -> Result<Option<String>, AllocError> {
        let text = self.text.as_slice();
        let mut out = String::new(alloc);
        match self.section {
            Section::Delete(style) => {
                show_script(alloc, &mut out, text, Asked::Deleted(style, words))?;
            }
            Section::Cut => show_script(alloc, &mut out, text, Asked::Cut(words))?,
            Section::Thin => show_script(alloc, &mut out, text, Asked::Thinned(number(words)))?,
            Section::Owners => show_script(alloc, &mut out, text, Asked::Binds(words))?,
            Section::Refused => show_refused(alloc, &mut out, text, number(words))?,
            Section::Set => show_set(alloc, &mut out, words)?,
            _ => return Ok(None),
        }
        Ok(Some(out))
    }
}
