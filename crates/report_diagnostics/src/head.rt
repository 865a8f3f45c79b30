//! The head of an answer as JSON: the version of the format, the verdict, and the diagnostics.
ghost use Rattle.std.specs.Prelude.{◌≡◌, OnOk};
ghost use Rattle.report_diagnostics.specs.Heads.{head_members, verdict_text};
ghost use Rattle.report_json.specs.Tokens.{Adds};

use crate::diagnostic::Diagnostic;
use crate::members::Word;
use json::Writer;
use report_json::{Array, Member, WriteMembers};
use std::alloc::{AllocError, Global};

/// The version of the JSON. A new member raises its second number, and a member that is gone or changed the first.
pub const VERSION: &str = "1.0";

/// The verdict on an input.
#[derive(Clone, Copy, Debug, PartialEq, Eq)]
pub enum Verdict {
    /// A module without an error.
    Accepted,
    /// A module with an error.
    Refused,
    /// The input is no module.
    InvalidInput,
}

impl Verdict {
    /// Returns the word, as `accepted`.
    pub fn word(self) -> &'static str
        ensures { result.now ≡ verdict_text self }
    {
        match self {
            Verdict::Accepted => "accepted",
            Verdict::Refused => "refused",
            Verdict::InvalidInput => "invalid_input",
        }
    }
}

/// Writes the head of an answer, which is the first three members of its object.
///
/// # Errors
///
/// `AllocError` if an allocation fails.
pub fn write_head(
    alloc: Global,
    writer: &mut Writer,
    verdict: Verdict,
    diagnostics: &[Diagnostic],
) -> Result<(), AllocError>
    ensures { OnOk result (Adds writer.old writer.new (head_members verdict diagnostics.now)) }
{
    let members = (
        Member("version", &Word(VERSION)),
        Member("verdict", &Word(verdict.word())),
        Member("diagnostics", &Array(diagnostics)),
    );
    members.write_members(alloc, writer)
}
