//! Places in a module and in its JSON.
ghost use Rattle.std.specs.Prelude.{◌≡◌};
ghost use Rattle.report_diagnostics.specs.Locations.{location_tokens, within_module};

use crate::members::OptionalMember;
use crate::text::Text;
use json::Writer;
use report_json::{Member, WriteJson, write_object};
use report_places::{BodyPlace, StatementPath};
use shader_arena::Handle;
use shader_ir::mark;
use std::alloc::{AllocError, Global};

/// Where a diagnostic stands: in a module, in the JSON that is read, or in both.
#[derive(Debug, Drop)]
pub struct Location {
    /// The function, entry point or global expression.
    pub body: Option<BodyPlace>,
    /// The name of the function or entry point.
    pub name: Option<Text>,
    /// The way from the function to a statement.
    pub statement: Option<StatementPath>,
    /// The expression.
    pub expression: Option<Handle<mark::Expression>>,
    /// The number of the argument.
    pub argument: Option<u32>,
    /// The type.
    pub ty: Option<Handle<mark::Type>>,
    /// The JSON pointer (RFC 6901) from the module to the most precise of these.
    pub pointer: Option<Text>,
    /// The way to a value in the JSON, as `entry_points[0].stage`.
    pub path: Option<Text>,
    /// The JSON pointer to that value of an input that is no module. It is written as `pointer`, which is then none, behind the path.
    pub input_pointer: Option<Text>,
    /// The line of that value, from 1.
    pub line: Option<usize>,
    /// The column in that line, from 1, in characters.
    pub column: Option<usize>,
    /// The byte of the input, from 0.
    pub byte: Option<usize>,
}

impl Location {
    /// Returns a place that is known in the module, and not in its text.
    pub fn within_module(
        body: Option<BodyPlace>,
        name: Option<Text>,
        statement: Option<StatementPath>,
        expression: Option<Handle<mark::Expression>>,
        ty: Option<Handle<mark::Type>>,
        pointer: Text,
    ) -> Location
        ensures { result ≡ within_module body name statement expression ty pointer }
    {
        Location {
            body,
            name,
            statement,
            expression,
            argument: None,
            ty,
            pointer: Some(pointer),
            path: None,
            input_pointer: None,
            line: None,
            column: None,
            byte: None,
        }
    }
}

/// A place, with the text of its expression.
#[derive(Clone, Copy)]
pub struct Located<'a> {
    pub location: &'a Location,
    pub text: &'a Option<Text>,
}

impl WriteJson for Located<'_> {
    ghost tokens = { λ located. location_tokens located.location.now located.text.now };

    #[tactic(auto, unfolding(crate::specs::Locations::location_tokens))]
    fn write_json(&self, alloc: Global, writer: &mut Writer) -> Result<(), AllocError> {
        let location = self.location;
        let in_function = (
            Member("body", &location.body),
            OptionalMember("name", &location.name),
            OptionalMember("statement", &location.statement),
            OptionalMember("expression", &location.expression),
        );
        let in_module = (
            OptionalMember("text", self.text),
            OptionalMember("type", &location.ty),
            OptionalMember("pointer", &location.pointer),
            OptionalMember("argument", &location.argument),
        );
        let in_json = (
            OptionalMember("path", &location.path),
            OptionalMember("pointer", &location.input_pointer),
        );
        let in_text = (
            OptionalMember("line", &location.line),
            OptionalMember("column", &location.column),
            OptionalMember("byte", &location.byte),
        );
        write_object(alloc, writer, &(in_function, in_module, in_json, in_text))
    }
}
