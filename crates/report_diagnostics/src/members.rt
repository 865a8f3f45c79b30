//! Members of JSON objects that aren't always there.
ghost use Rattle.report_diagnostics.specs.Members.{optional_member};
ghost use Rattle.report_json.specs.Tokens.{text_tokens};

use json::Writer;
use report_json::{Member, WriteJson, WriteMembers};
use std::alloc::{AllocError, Global};

/// A member that is left out if it has no value.
#[derive(Drop)]
pub struct OptionalMember<'a, T>(pub &'a str, pub &'a Option<T>);

impl<T: WriteJson> WriteMembers for OptionalMember<'_, T> {
    ghost members = { λ member. optional_member T.tokens member.0.now member.1.now };

    fn write_members(&self, alloc: Global, writer: &mut Writer) -> Result<(), AllocError> {
        match self.1 {
            Some(value) => Member(self.0, value).write_members(alloc, writer),
            None => Ok(()),
        }
    }
}

/// A word that is known before the program runs, as the name of a variant.
#[derive(Clone, Copy)]
pub struct Word<'a>(pub &'a str);

impl WriteJson for Word<'_> {
    ghost tokens = { λ word. text_tokens word.0.now };

    fn write_json(&self, _alloc: Global, writer: &mut Writer) -> Result<(), AllocError> {
        writer.string(self.0)
    }
}
