//! The trait of values that are written as JSON, and how lists and variants of them are written.
ghost use Rattle.std.specs.Prelude.{List, OnOk, flat_map};
ghost use Rattle.json.specs.Token.{Token};
ghost use Rattle.report_json.specs.Tokens.{Adds, array, variant};

use json::Writer;
use shader_ir::Items;
use std::alloc::{AllocError, Global};

/// A value that is written as JSON.
pub trait WriteJson {
    // The tokens of the value.
    ghost tokens: { Self → List Token };

    /// Writes the value. Only texts that are put together are allocated, besides what is written.
    ///
    /// # Errors
    ///
    /// `AllocError` if an allocation fails. Some of the tokens may have been written.
    fn write_json(&self, alloc: Global, writer: &mut Writer) -> Result<(), AllocError>
        ensures { OnOk result (Adds writer.old writer.new (tokens self.now)) };
}

/// Writes values as an array.
///
/// # Errors
///
/// `AllocError` if an allocation fails.
pub fn write_list<T: WriteJson>(
    alloc: Global,
    writer: &mut Writer,
    values: &[T],
) -> Result<(), AllocError>
    ensures { OnOk result (Adds writer.old writer.new (array (flat_map T.tokens values.now))) }
{
    writer.begin_array()?;
    for value in values {
        value.write_json(alloc, writer)?;
    }
    writer.end_array()
}

/// Values that are written as an array.
#[derive(Drop)]
pub struct Array<'a, T>(pub &'a [T]);

impl<T: WriteJson> WriteJson for Array<'_, T> {
    ghost tokens = { λ list. array (flat_map T.tokens list.0.now) };

    fn write_json(&self, alloc: Global, writer: &mut Writer) -> Result<(), AllocError> {
        write_list(alloc, writer, self.0)
    }
}

impl<T: WriteJson> WriteJson for Vec<T> {
    ghost tokens = { λ values. array (flat_map T.tokens values.items) };

    fn write_json(&self, alloc: Global, writer: &mut Writer) -> Result<(), AllocError> {
        write_list(alloc, writer, self.as_slice())
    }
}

impl<T: WriteJson> WriteJson for Items<T> {
    ghost tokens = { λ items. array (flat_map T.tokens items) };

    fn write_json(&self, alloc: Global, writer: &mut Writer) -> Result<(), AllocError> {
        write_list(alloc, writer, self.as_slice())
    }
}

/// Writes an object with one member: the name of a variant, and its data.
///
/// # Errors
///
/// `AllocError` if an allocation fails.
pub fn write_variant<T: WriteJson>(
    alloc: Global,
    writer: &mut Writer,
    name: &str,
    value: &T,
) -> Result<(), AllocError>
    ensures { OnOk result (Adds writer.old writer.new (variant name.now (T.tokens value.now))) }
{
    writer.begin_object()?;
    writer.key(name)?;
    value.write_json(alloc, writer)?;
    writer.end_object()
}
