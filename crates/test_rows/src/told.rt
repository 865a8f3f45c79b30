//! The facts that the program prints of modules.
use std::alloc::{AllocError, Global};
use std::fmt::{Debug, Display};

/// A text of facts, and whether an allocation failed on the way. A fact is a tab, a name, a space and a value.
#[derive(Drop)]
pub struct Told {
    text: String,
    has_failed: bool,
}

impl Told {
    pub fn new(alloc: Global) -> Told {
        Told {
            text: String::new(alloc),
            has_failed: false,
        }
    }

    /// Notes that an allocation failed.
    pub fn fail(&mut self) {
        self.has_failed = true;
    }

    /// Notes whether a write succeeded.
    fn note(&mut self, outcome: Result<(), AllocError>) {
        if outcome.is_err() {
            self.has_failed = true;
        }
    }

    /// Tells a value as `Debug` prints it.
    pub fn show<T: Debug + Drop>(&mut self, name: &str, value: T) {
        let outcome = write!(self.text, "\t{name} {value:?}");
        drop(value);
        self.note(outcome);
    }

    /// Tells a value that is lent as `Debug` prints it.
    pub fn show_lent<T: Debug>(&mut self, name: &str, value: &T) {
        let outcome = write!(self.text, "\t{name} {value:?}");
        self.note(outcome);
    }

    /// Tells a value as `Display` prints it.
    pub fn say<T: Display>(&mut self, name: &str, value: &T) {
        let outcome = write!(self.text, "\t{name} {value}");
        self.note(outcome);
    }

    /// Tells a name alone.
    pub fn name(&mut self, name: &str) {
        let outcome = write!(self.text, "\t{name}");
        self.note(outcome);
    }

    /// Tells the value of a call that allocates.
    pub fn show_allocated<T: Debug + Drop>(&mut self, name: &str, value: Result<T, AllocError>) {
        match value {
            Ok(value) => self.show(name, value),
            Err(AllocError) => self.fail(),
        }
    }

    /// Ends the line of a question.
    pub fn end_line(&mut self) {
        let outcome = self.text.push_str("\n");
        self.note(outcome);
    }

    /// Returns the text, if no allocation failed.
    pub fn into_text(self) -> Result<String, AllocError> {
        let Told { text, has_failed } = self;
        if has_failed {
            Err(AllocError)
        } else {
            Ok(text)
        }
    }
}
