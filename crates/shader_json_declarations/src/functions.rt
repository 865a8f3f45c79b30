//! Reads the contents of functions except expressions and statements.
ghost use Rattle.std.specs.Prelude.{ℕ, IfNone, IfSome};
ghost use Rattle.shader_json_declarations.specs.Declarations.{IsArgument, IsLocal, IsResult, IsStage};
ghost use Rattle.shader_json_declarations.specs.NamedExpressions.{AreNamedExpressions, IsHandleKey};
ghost use Rattle.shader_json_declarations.specs.Names.{stage_name};

use crate::fields::Fields;
use crate::maps::add_entry;
use crate::names::{Spelled, named};
use crate::values::{Read, read_item};
use json::Value;
use shader_arena::Handle;
use shader_ir::{
    FunctionArgument, FunctionResult, LocalVariable, Name, NamedExpressions, ShaderStage, mark,
};
use shader_json_reader::{Context, Failure, within};

impl Read for FunctionArgument {
    ghost reads = { λ j argument. IsArgument j argument };

    fn read(context: Context, value: &Value<'_>) -> Result<FunctionArgument, Failure> {
        let fields = Fields::of(context, value)?;
        Ok(FunctionArgument {
            name: fields.optional(context, "name")?,
            ty: fields.needed(context, "ty")?,
            binding: fields.optional(context, "binding")?,
        })
    }
}

impl Read for FunctionResult {
    ghost reads = { λ j returned. IsResult j returned };

    fn read(context: Context, value: &Value<'_>) -> Result<FunctionResult, Failure> {
        let fields = Fields::of(context, value)?;
        Ok(FunctionResult {
            ty: fields.needed(context, "ty")?,
            binding: fields.optional(context, "binding")?,
        })
    }
}

impl Read for LocalVariable {
    ghost reads = { λ j variable. IsLocal j variable };

    fn read(context: Context, value: &Value<'_>) -> Result<LocalVariable, Failure> {
        let fields = Fields::of(context, value)?;
        Ok(LocalVariable {
            name: fields.optional(context, "name")?,
            ty: fields.needed(context, "ty")?,
            init: fields.optional(context, "init")?,
        })
    }
}

impl Read for NamedExpressions {
    ghost reads = { λ j names. AreNamedExpressions j names };

    fn read(context: Context, value: &Value<'_>) -> Result<NamedExpressions, Failure> {
        let Value::Object(members) = value else {
            return Err(context.refused("an object"));
        };
        let mut names = NamedExpressions::new(context.alloc);
        for (index, member) in members.iter().enumerate() {
            let Some(handle) = handle_of(member.0) else {
                return Err(context.refused("keys that are handles"));
            };
            let name = read_item(context, index, &member.1)?;
            within(index, add_entry(context, &mut names, handle, name))?;
        }
        Ok(names)
    }
}

/// Returns the handle that a key spells, in decimal without sign or leading zeros.
fn handle_of(key: &str) -> Option<Handle<mark::Expression>>
    ensures some { IfSome result (λ handle. IsHandleKey key.now handle) }
    ensures none { IfNone result ((handle : ℕ) → IsHandleKey key.now handle → ⊥) }
{
    match key.as_bytes() {
        [b'0'] => Some(Handle::from_index(0)),
        [b'1'..=b'9', ..] => match key.parse::<u32>() {
            Ok(position) if position < u32::MAX => Some(Handle::from_index(position)),
            _ => None,
        },
        _ => None,
    }
}

impl Spelled for ShaderStage {
    ghost spelling = { λ item. stage_name item };
}

impl Read for ShaderStage {
    ghost reads = { λ j stage. IsStage j stage };

    fn read(context: Context, value: &Value<'_>) -> Result<ShaderStage, Failure> {
        let table = [
            ("Vertex", ShaderStage::Vertex),
            ("Fragment", ShaderStage::Fragment),
            ("Compute", ShaderStage::Compute),
            ("Mesh", ShaderStage::Mesh),
            ("Task", ShaderStage::Task),
        ];
        let wanted = "`Vertex`, `Fragment`, `Compute`, `Mesh` or `Task`";
        named(context, value, &table, wanted)
    }
}
