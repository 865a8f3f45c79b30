//! Flags as JSON: a text of their names, separated by bars.
ghost use Rattle.std.specs.Prelude.{OnOk, Some, map};
ghost use Rattle.std.specs.List.{flat_map};
ghost use Rattle.report_json.specs.Flags.{access_text, capabilities_text, flags_text, name_after_bar, requirements_text, rows_of};
ghost use Rattle.report_json.specs.Flags.{stages_text, uses_text};
ghost use Rattle.report_json.specs.Tokens.{Adds, text_tokens};

use crate::write_json::WriteJson;
use json::Writer;
use shader_info::{Capabilities, GlobalUse, UniformityRequirements};
use shader_ir::{ShaderStages, StorageAccess};
use std::alloc::{AllocError, Global};
use std::fmt;

/// A flag's name and its bit.
type Flag = (&'static str, u64);

/// The names of the flags that are set, each after a bar.
#[derive(Clone, Copy)]
struct LaterText<'a> {
    table: &'a [Flag],
    bits: u64,
}

impl fmt::Display for LaterText<'_> {
    ghost output = { λ text. Some (flat_map (name_after_bar text.bits) (rows_of text.table.now)) };

    fn fmt<W: fmt::Write>(&self, f: &mut fmt::Formatter<W>) -> fmt::Result {
        for (name, bit) in self.table {
            if self.bits & *bit == *bit {
                write!(f, " | {name}")?;
            }
        }
        Ok(())
    }
}

/// The names of the flags that are set, separated by bars.
#[derive(Clone, Copy)]
struct FlagsText<'a> {
    table: &'a [Flag],
    bits: u64,
}

impl fmt::Display for FlagsText<'_> {
    ghost output = { λ text. Some (flags_text (rows_of text.table.now) text.bits) };

    fn fmt<W: fmt::Write>(&self, f: &mut fmt::Formatter<W>) -> fmt::Result {
        let bits = self.bits;
        for (position, (name, bit)) in self.table.iter().enumerate() {
            if bits & *bit == *bit {
                let table = &self.table[position + 1..];
                return write!(f, "{name}{}", LaterText { table, bits });
            }
        }
        Ok(())
    }
}

/// Writes the names of the flags that are set.
fn write_flags(
    alloc: Global,
    writer: &mut Writer,
    table: &[Flag],
    bits: u64,
) -> Result<(), AllocError>
    ensures { OnOk result (Adds writer.old writer.new (text_tokens (flags_text (rows_of table.now) bits))) }
{
    let text = format!(in alloc; "{}", FlagsText { table, bits })?;
    writer.string(text.as_str())
}

impl WriteJson for StorageAccess {
    ghost tokens = { λ access. text_tokens (access_text access) };

    #[tactic(auto, unfolding(crate::specs::Flags::access_text))]
    fn write_json(&self, alloc: Global, writer: &mut Writer) -> Result<(), AllocError> {
        let table = [("LOAD", 1), ("STORE", 2), ("ATOMIC", 4)];
        write_flags(alloc, writer, &table, u64::from(self.0))
    }
}

impl WriteJson for ShaderStages {
    ghost tokens = { λ stages. text_tokens (stages_text stages) };

    #[tactic(auto, unfolding(crate::specs::Flags::stages_text))]
    fn write_json(&self, alloc: Global, writer: &mut Writer) -> Result<(), AllocError> {
        let table = [
            ("VERTEX", 1),
            ("FRAGMENT", 2),
            ("COMPUTE", 4),
            ("MESH", 8),
            ("TASK", 16),
        ];
        write_flags(alloc, writer, &table, u64::from(self.0))
    }
}

impl WriteJson for UniformityRequirements {
    ghost tokens = { λ requirements. text_tokens (requirements_text requirements) };

    #[tactic(auto, unfolding(crate::specs::Flags::requirements_text))]
    fn write_json(&self, alloc: Global, writer: &mut Writer) -> Result<(), AllocError> {
        // Most are empty, and need no text that is put together.
        if self.0 == 0 {
            return writer.string("");
        }
        let table = [
            ("WORK_GROUP_BARRIER", 1),
            ("DERIVATIVE", 2),
            ("IMPLICIT_LEVEL", 4),
            ("COOP_OPS", 8),
        ];
        write_flags(alloc, writer, &table, u64::from(self.0))
    }
}

impl WriteJson for GlobalUse {
    ghost tokens = { λ uses. text_tokens (uses_text uses) };

    #[tactic(auto, unfolding(crate::specs::Flags::uses_text))]
    fn write_json(&self, alloc: Global, writer: &mut Writer) -> Result<(), AllocError> {
        // Most are empty, and need no text that is put together.
        if self.0 == 0 {
            return writer.string("");
        }
        let table = [("READ", 1), ("WRITE", 2), ("QUERY", 4), ("ATOMIC", 8)];
        write_flags(alloc, writer, &table, u64::from(self.0))
    }
}

impl WriteJson for Capabilities {
    ghost tokens = { λ capabilities. text_tokens (capabilities_text capabilities) };

    #[tactic(auto, unfolding(crate::specs::Flags::capabilities_text))]
    fn write_json(&self, alloc: Global, writer: &mut Writer) -> Result<(), AllocError> {
        let table = [
            ("TEXTURE_AND_SAMPLER_BINDING_ARRAY_NON_UNIFORM_INDEXING", 1),
            ("STORAGE_TEXTURE_BINDING_ARRAY_NON_UNIFORM_INDEXING", 2),
        ];
        write_flags(alloc, writer, &table, self.0)
    }
}
