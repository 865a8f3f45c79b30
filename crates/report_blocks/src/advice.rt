//! Notes and help below an excerpt.

use crate::causes::Causes;
use report_diagnostics::{Code, Diagnostic, sentence_of};
use std::alloc::{AllocError, Global};

/// The most columns of a line.
const MOST_COLUMNS: usize = 100;

/// The columns in front of a line of advice.
const MARGIN: usize = 11;

/// A text whose lines break at blanks.
#[derive(Drop)]
struct Broken {
    text: String,
    /// The columns of the last line.
    columns: usize,
}

impl Broken {
    /// Adds a word, on a new line if it doesn't fit on the last one.
    fn add(&mut self, word: &str) -> Result<(), AllocError> {
        let width = word.chars().count();
        if self.columns <= MARGIN {
            self.columns = MARGIN;
        } else if MOST_COLUMNS <= self.columns.saturating_add(width) {
            self.text.push_str("\n           ")?;
            self.columns = MARGIN;
        } else {
            self.text.push_str(" ")?;
            self.columns = self.columns.saturating_add(1);
        }
        self.text.push_str(word)?;
        self.columns = self.columns.saturating_add(width);
        Ok(())
    }
}

/// Returns a text whose lines break at blanks, to be printed behind a word of four letters.
fn broken_text(alloc: Global, text: &str) -> Result<String, AllocError> {
    let mut broken = Broken {
        text: String::new(alloc),
        columns: 0,
    };
    let mut word = String::new(alloc);
    for character in text.chars() {
        if character == ' ' {
            broken.add(word.as_str())?;
            word = String::new(alloc);
        } else {
            word.push(character)?;
        }
    }
    broken.add(word.as_str())?;
    Ok(broken.text)
}

/// Adds advice behind a word of four letters. Its lines break at blanks.
fn add_advice(
    alloc: Global,
    text: &mut String,
    word: &str,
    advice: &str,
) -> Result<(), AllocError> {
    let advice = broken_text(alloc, advice)?;
    let lines = format!(in alloc; "   = {word}: {advice}\n")?;
    text.push_str(lines.as_str())
}

/// Returns the sentence of a code, whose lines break at blanks.
pub fn sentence_lines(alloc: Global, code: Code) -> Result<String, AllocError> {
    broken_text(alloc, sentence_of(code))
}

/// Adds the help of a diagnostic.
fn add_help(alloc: Global, text: &mut String, diagnostic: &Diagnostic) -> Result<(), AllocError> {
    for help in &diagnostic.help {
        add_advice(alloc, text, "help", help.as_str())?;
    }
    Ok(())
}

/// Returns the notes and the help of a diagnostic, each on lines of at most 100 columns unless a word is longer.
///
/// If its causes are repeated, the diagnostic that shows them has the code `first`, and the advice for all with that code.
pub fn advice_text(
    alloc: Global,
    diagnostic: &Diagnostic,
    causes: &Causes<'_>,
    is_repeated: bool,
    first: Code,
) -> Result<String, AllocError> {
    let mut text = String::new(alloc);
    if is_repeated {
        if diagnostic.code != first {
            add_help(alloc, &mut text, diagnostic)?;
        }
        return Ok(text);
    }
    if let Some(note) = causes.omitted_note(alloc)? {
        add_advice(alloc, &mut text, "note", note.as_str())?;
    }
    for note in &diagnostic.notes {
        add_advice(alloc, &mut text, "note", note.as_str())?;
    }
    add_help(alloc, &mut text, diagnostic)?;
    Ok(text)
}
