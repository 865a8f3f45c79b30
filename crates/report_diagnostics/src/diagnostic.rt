//! Diagnostics, and how they are written as JSON.
ghost use Rattle.std.specs.Prelude.{◌≡◌};
ghost use Rattle.report_diagnostics.specs.Diagnostics.{IsError, IsPlain, diagnostic_tokens, related_tokens, severity_text};
ghost use Rattle.report_json.specs.Tokens.{text_tokens};

use crate::codes::Code;
use crate::facts::Facts;
use crate::location::{Located, Location};
use crate::members::Word;
use crate::text::Text;
use json::Writer;
use report_json::{Member, WriteJson, write_object};
use shader_arena::Handle;
use shader_ir::mark;
use std::alloc::{AllocError, Global};

/// How severe a diagnostic is. Only a diagnostic filter of a shader makes one a warning or an information.
#[derive(Clone, Copy, Debug, PartialEq, Eq)]
pub enum Severity {
    /// The module is refused.
    Error,
    /// The module is accepted, and should be changed.
    Warning,
    /// The module is accepted.
    Info,
}

impl Severity {
    /// Returns the word, as `error`.
    pub fn word(self) -> &'static str
        ensures { result.now ≡ severity_text self }
    {
        match self {
            Severity::Error => "error",
            Severity::Warning => "warning",
            Severity::Info => "info",
        }
    }
}

impl WriteJson for Severity {
    ghost tokens = { λ severity. text_tokens (severity_text severity) };

    fn write_json(&self, _alloc: Global, writer: &mut Writer) -> Result<(), AllocError> {
        writer.string(self.word())
    }
}

/// A cause of a diagnostic, and where it stands.
#[derive(Drop)]
pub struct Related {
    pub message: Text,
    pub location: Location,
    /// The text of the expression at the place, if there is one.
    pub text: Option<Text>,
}

impl WriteJson for Related {
    ghost tokens = { λ related. related_tokens related };

    #[tactic(auto, unfolding(crate::specs::Diagnostics::related_tokens))]
    fn write_json(&self, alloc: Global, writer: &mut Writer) -> Result<(), AllocError> {
        let located = Located {
            location: &self.location,
            text: &self.text,
        };
        let members = (
            Member("message", &self.message),
            Member("location", &located),
        );
        write_object(alloc, writer, &members)
    }
}

/// What an excerpt says of the place of a diagnostic.
#[derive(Drop)]
pub struct Label {
    /// The operand of the expression that is marked, or none if the place itself is.
    pub operand: Option<Handle<mark::Expression>>,
    pub words: Text,
}

/// Something that is wrong with an input or a module.
#[derive(Drop)]
pub struct Diagnostic {
    pub code: Code,
    pub severity: Severity,
    /// What is wrong, in a sentence. Its wording may change in any release.
    pub message: Text,
    pub location: Location,
    /// The byte behind what an excerpt of the JSON marks, if there is such an excerpt. It isn't written as JSON.
    pub end: Option<usize>,
    /// The text of the expression at the place, if there is one.
    pub text: Option<Text>,
    /// What an excerpt says of the place, or none if the code alone tells that. It isn't written as JSON.
    pub label: Option<Label>,
    /// The way from the pointer of the place to the field of the JSON that is at fault, as `.init`. A place in the JSON has it in its path.
    pub field: Option<Text>,
    /// Facts of this kind of diagnostic.
    pub data: Facts,
    /// The causes, from the place back to the source.
    pub related: Vec<Related>,
    /// How many causes aren't in `related`.
    pub omitted: usize,
    pub notes: Vec<Text>,
    /// What to do about it.
    pub help: Vec<Text>,
}

impl Diagnostic {
    /// Returns an error without data, causes, notes and help.
    pub fn error(alloc: Global, code: Code, message: Text, location: Location) -> Diagnostic
        ensures error { IsError code location result }
        ensures message { result.message ≡ message }
        ensures plain { IsPlain result }
    {
        Diagnostic {
            code,
            severity: Severity::Error,
            message,
            location,
            end: None,
            text: None,
            label: None,
            field: None,
            data: Facts::none(alloc),
            related: Vec::new(alloc),
            omitted: 0,
            notes: Vec::new(alloc),
            help: Vec::new(alloc),
        }
    }
}

impl WriteJson for Diagnostic {
    ghost tokens = { λ diagnostic. diagnostic_tokens diagnostic };

    #[tactic(auto, unfolding(crate::specs::Diagnostics::diagnostic_tokens))]
    fn write_json(&self, alloc: Global, writer: &mut Writer) -> Result<(), AllocError> {
        let code = Word(self.code.code());
        let name = Word(self.code.name());
        let kind = (
            Member("code", &code),
            Member("name", &name),
            Member("severity", &self.severity),
            Member("message", &self.message),
        );
        let located = Located {
            location: &self.location,
            text: &self.text,
        };
        let causes = (
            Member("location", &located),
            Member("data", &self.data),
            Member("related", &self.related),
            Member("omitted", &self.omitted),
        );
        let advice = (Member("notes", &self.notes), Member("help", &self.help));
        write_object(alloc, writer, &(kind, causes, advice))
    }
}
