//! What is said of an error.

use report_diagnostics::{FactValue, Facts, Label, Text};
use shader_arena::Handle;
use shader_ir::mark;
use std::alloc::{AllocError, Global};

/// What is said of an error, besides its code and its place.
#[derive(Drop)]
pub struct Wording {
    /// What is wrong, in a sentence.
    pub message: Text,
    /// What is said of the marked part of an excerpt, or none if the code alone tells that.
    pub label: Option<Label>,
    /// The way from the place to the field of the JSON that is at fault, as `.init`.
    pub field: Option<Text>,
    pub data: Facts,
    pub notes: Vec<Text>,
    pub help: Vec<Text>,
}

impl Wording {
    /// Returns a sentence alone.
    pub fn of(alloc: Global, message: String) -> Wording {
        Wording {
            message: Text::from(message),
            label: None,
            field: None,
            data: Facts::none(alloc),
            notes: Vec::new(alloc),
            help: Vec::new(alloc),
        }
    }

    /// Adds a label at an operand of the expression, or at all of it.
    pub fn labelled(self, operand: Option<Handle<mark::Expression>>, words: String) -> Wording {
        let label = Label {
            operand,
            words: Text::from(words),
        };
        Wording {
            label: Some(label),
            ..self
        }
    }

    /// Adds a note.
    pub fn note(&mut self, words: String) -> Result<(), AllocError> {
        self.notes.push(Text::from(words))?;
        Ok(())
    }

    /// Adds what to do.
    pub fn help(&mut self, words: String) -> Result<(), AllocError> {
        self.help.push(Text::from(words))?;
        Ok(())
    }

    /// Adds a number as a fact.
    pub fn number(&mut self, alloc: Global, name: &str, value: usize) -> Result<(), AllocError> {
        let name = Text::from(name.to_string(alloc)?);
        self.data.add(name, FactValue::Number(value))
    }

    /// Adds a word as a fact.
    pub fn word(&mut self, alloc: Global, name: &str, value: &str) -> Result<(), AllocError> {
        let name = Text::from(name.to_string(alloc)?);
        let value = Text::from(value.to_string(alloc)?);
        self.data.add(name, FactValue::Word(value))
    }
}
