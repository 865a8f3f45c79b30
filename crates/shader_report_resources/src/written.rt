//! Writes members of objects.
ghost use Rattle.std.specs.Prelude.{◌≡◌, OnOk};
ghost use Rattle.std.specs.Option.{option_map};
ghost use Rattle.report_json.specs.Tokens.{Adds};
ghost use Rattle.shader_report_resources.specs.Written.{number_member, text_member};

use json::Writer;
use shader_ir::Name;
use std::alloc::AllocError;

/// Writes a member with a number, or with null.
pub(crate) fn write_number(
    writer: &mut Writer,
    name: &str,
    number: Option<u32>,
) -> Result<(), AllocError>
    ensures { OnOk result (Adds writer.old writer.new (number_member name.now number)) }
{
    writer.key(name)?;
    match number {
        Some(number) => writer.u64(number as u64),
        None => writer.null(),
    }
}

/// Writes a member with a text, or with null.
pub(crate) fn write_text(
    writer: &mut Writer,
    name: &str,
    text: Option<&str>,
) -> Result<(), AllocError>
    ensures { OnOk result (Adds writer.old writer.new (text_member name.now (option_map (λ text. text.now) text.entry))) }
{
    writer.key(name)?;
    match text {
        Some(text) => writer.string(text),
        None => writer.null(),
    }
}

/// Writes a member with a name, or with null.
pub(crate) fn write_name(
    writer: &mut Writer,
    member: &str,
    name: &Option<Name>,
) -> Result<(), AllocError>
    ensures { OnOk result (Adds writer.old writer.new (text_member member.now name.now)) }
{
    match name {
        Some(name) => write_text(writer, member, Some(name.as_str())),
        None => write_text(writer, member, None),
    }
}
