//! Rows of an excerpt: a line of the function, and the marks under it.

use crate::body::Body;
use crate::sites::Site;
use report_expressions::{Line, MarkedText, Source, text_of_line};
use shader_arena::Handle;
use shader_ir::mark;
use std::alloc::{AllocError, Global};

/// The most columns of a line beside its indentation and labels.
pub const MOST_COLUMNS: usize = 100;

/// The most levels at which heads without marks are printed.
const MOST_HEADS: usize = 8;

/// The most levels that are indented.
const MOST_LEVELS: usize = 9;

/// The rows of an excerpt, as they are printed.
#[derive(Drop)]
pub struct Rows {
    pub alloc: Global,
    pub text: String,
    /// Whether only lines with marks are printed, without dots for others.
    pub is_brief: bool,
    /// The level of the first line that is left out since the last row, if there is one.
    pub gap: Option<usize>,
}

impl Rows {
    /// Returns no rows.
    pub fn none(alloc: Global, is_brief: bool) -> Rows {
        Rows {
            alloc,
            text: String::new(alloc),
            is_brief,
            gap: None,
        }
    }

    /// Begins a row, at a level.
    fn begin(&mut self, level: usize) -> Result<(), AllocError> {
        self.text.push_str("   | ")?;
        for _ in 0..level.min(MOST_LEVELS) {
            self.text.push_str("  ")?;
        }
        Ok(())
    }

    /// Leaves a line out. Three dots stand for it if a row follows.
    pub fn leave_out(&mut self, level: usize) {
        if !self.is_brief && self.gap.is_none() {
            self.gap = Some(level);
        }
    }

    /// Prints three dots if a line was left out.
    fn close_gap(&mut self) -> Result<(), AllocError> {
        match self.gap {
            Some(level) => {
                self.gap = None;
                self.begin(level)?;
                self.text.push_str("...\n")
            }
            None => Ok(()),
        }
    }

    /// Prints a line.
    pub fn add_line(&mut self, level: usize, line: &str) -> Result<(), AllocError> {
        self.close_gap()?;
        self.begin(level)?;
        self.text.push_str(line)?;
        self.text.push_str("\n")
    }

    /// Prints a mark under some columns of the last line.
    pub fn add_mark(
        &mut self,
        level: usize,
        begin: usize,
        end: usize,
        is_main: bool,
        label: &str,
    ) -> Result<(), AllocError> {
        self.begin(level)?;
        for _ in 0..begin {
            self.text.push_str(" ")?;
        }
        let sign = if is_main { "^" } else { "-" };
        for _ in begin..end.max(begin.saturating_add(1)) {
            self.text.push_str(sign)?;
        }
        self.text.push_str(" ")?;
        self.text.push_str(label)?;
        self.text.push_str("\n")
    }
}

/// Returns a copy of a line.
fn copy_of<'a>(line: &Line<'a>) -> Line<'a> {
    match line {
        Line::Expression(value) => Line::Expression(*value),
        Line::Place(value) => Line::Place(*value),
        Line::Let(value) => Line::Let(*value),
        Line::Statement(statement) => Line::Statement(*statement),
        Line::While(condition) => Line::While(*condition),
        Line::For(condition, store) => Line::For(*condition, *store),
        Line::Else => Line::Else,
        Line::Case(value) => Line::Case(*value),
        Line::Continuing => Line::Continuing,
        Line::BreakIf(condition) => Line::BreakIf(*condition),
    }
}

/// Returns a line of a function, with the operands to what is marked in it.
fn text_of<'a>(
    alloc: Global,
    body: &Body<'a>,
    line: &Line<'a>,
    way: &[Handle<mark::Expression>],
) -> Result<MarkedText, AllocError> {
    let source = Source {
        module: body.module,
        function: body.function,
        makers: &body.makers,
        line: copy_of(line),
        way,
    };
    text_of_line(alloc, &source, MOST_COLUMNS)
}

/// Checks whether a text is that of the last line.
fn is_last(last: &Option<MarkedText>, marked: &MarkedText) -> bool {
    match last {
        Some(last) => last.text.as_str() == marked.text.as_str(),
        None => false,
    }
}

/// Returns the first marked column, behind a sign.
fn behind_sign(marked: &MarkedText, sign: Option<char>) -> usize {
    let first = marked.text.as_str().chars().skip(marked.begin).next();
    if sign.is_some() && first == sign {
        marked.begin.saturating_add(1)
    } else {
        marked.begin
    }
}

/// Prints a line without marks, as the head of a block. Of many blocks within one another the inner ones are left out.
fn add_unmarked<'a>(
    body: &Body<'a>,
    rows: &mut Rows,
    level: usize,
    line: &Line<'a>,
) -> Result<(), AllocError> {
    if rows.is_brief {
        return Ok(());
    }
    if level > MOST_HEADS {
        rows.leave_out(level);
        return Ok(());
    }
    let shown = text_of(rows.alloc, body, line, &[])?;
    rows.add_line(level, shown.text.as_str())
}

/// Prints a line with the marks of the chosen sites, or as a head if there are none. It is printed again for a mark to which other operands
/// have to be shown.
pub fn add_row<'a>(
    body: &Body<'a>,
    rows: &mut Rows,
    level: usize,
    line: &Line<'a>,
    sites: &[Site],
    chosen: &[usize],
) -> Result<(), AllocError> {
    let alloc = rows.alloc;
    let mut last: Option<MarkedText> = None;
    for index in chosen {
        if let Some(site) = sites.get(*index) {
            let marked = text_of(alloc, body, line, site.operands.as_slice())?;
            if !is_last(&last, &marked) {
                rows.add_line(level, marked.text.as_str())?;
            }
            let label = site.label.as_str();
            let begin = behind_sign(&marked, site.sign);
            rows.add_mark(level, begin, marked.end, site.is_main, label)?;
            last = Some(marked);
        }
    }
    if last.is_none() {
        add_unmarked(body, rows, level, line)?;
    }
    Ok(())
}
