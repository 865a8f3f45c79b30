//! Members of objects that are written as JSON.
ghost use Rattle.std.specs.Prelude.{◌∷◌, ◌++◌, List, OnOk};
ghost use Rattle.json.specs.Token.{Token, key};
ghost use Rattle.report_json.specs.Tokens.{Adds, fields, object};

use crate::write_json::WriteJson;
use json::Writer;
use std::alloc::{AllocError, Global};

/// One or more members of an object.
pub trait WriteMembers {
    // The tokens of the members.
    ghost members: { Self → List Token };

    /// Writes the members.
    ///
    /// # Errors
    ///
    /// `AllocError` if an allocation fails. Some of the tokens may have been written.
    fn write_members(&self, alloc: Global, writer: &mut Writer) -> Result<(), AllocError>
        ensures { OnOk result (Adds writer.old writer.new (members self.now)) };
}

/// A member: its name and its value.
#[derive(Drop)]
pub struct Member<'a, T>(pub &'a str, pub &'a T);

impl<T: WriteJson> WriteMembers for Member<'_, T> {
    ghost members = { λ member. key member.0.now ∷ T.tokens member.1.now };

    fn write_members(&self, alloc: Global, writer: &mut Writer) -> Result<(), AllocError> {
        writer.key(self.0)?;
        self.1.write_json(alloc, writer)
    }
}

impl<A: WriteMembers, B: WriteMembers> WriteMembers for (A, B) {
    ghost members = { λ both. A.members both.0 ++ B.members both.1 };

    fn write_members(&self, alloc: Global, writer: &mut Writer) -> Result<(), AllocError> {
        self.0.write_members(alloc, writer)?;
        self.1.write_members(alloc, writer)
    }
}

impl<A: WriteMembers, B: WriteMembers, C: WriteMembers> WriteMembers for (A, B, C) {
    ghost members = { λ all. A.members all.0 ++ (B.members all.1 ++ C.members all.2) };

    fn write_members(&self, alloc: Global, writer: &mut Writer) -> Result<(), AllocError> {
        self.0.write_members(alloc, writer)?;
        self.1.write_members(alloc, writer)?;
        self.2.write_members(alloc, writer)
    }
}

impl<A: WriteMembers, B: WriteMembers, C: WriteMembers, D: WriteMembers> WriteMembers
    for (A, B, C, D) {
    ghost members = { λ all. A.members all.0 ++ (B.members all.1 ++ (C.members all.2 ++ D.members all.3)) };

    fn write_members(&self, alloc: Global, writer: &mut Writer) -> Result<(), AllocError> {
        self.0.write_members(alloc, writer)?;
        self.1.write_members(alloc, writer)?;
        self.2.write_members(alloc, writer)?;
        self.3.write_members(alloc, writer)
    }
}

/// Writes an object with these members.
///
/// # Errors
///
/// `AllocError` if an allocation fails.
pub fn write_object<M: WriteMembers>(
    alloc: Global,
    writer: &mut Writer,
    members: &M,
) -> Result<(), AllocError>
    ensures { OnOk result (Adds writer.old writer.new (object (M.members members.now))) }
{
    writer.begin_object()?;
    members.write_members(alloc, writer)?;
    writer.end_object()
}

/// Writes an object with one member: the name of a variant, and the object of its fields.
///
/// # Errors
///
/// `AllocError` if an allocation fails.
pub fn write_fields<M: WriteMembers>(
    alloc: Global,
    writer: &mut Writer,
    name: &str,
    members: &M,
) -> Result<(), AllocError>
    ensures { OnOk result (Adds writer.old writer.new (fields name.now (M.members members.now))) }
{
    writer.begin_object()?;
    writer.key(name)?;
    write_object(alloc, writer, members)?;
    writer.end_object()
}
