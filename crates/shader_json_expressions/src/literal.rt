//! Reads literals.
ghost use Rattle.shader_json_expressions.specs.Literals.{IsLiteral};

use crate::code::Code;
use crate::floats::{Double, Single};
use json::Value;
use shader_ir::Literal;
use shader_json_declarations::{Read, Variant};
use shader_json_reader::{Context, Failure};

impl Read for Code<Literal> {
    ghost reads = { λ j literal. IsLiteral j literal.0 };

    fn read(context: Context, value: &Value<'_>) -> Result<Code<Literal>, Failure> {
        let Variant { name, payload } = Variant::of(context, value)?;
        let Some(payload) = payload else {
            return Err(context.refused("a literal, with its value"));
        };
        let found = match name {
            "F64" => Literal::F64(payload.read::<Double>(context)?.0),
            "F32" => Literal::F32(payload.read::<Single>(context)?.0),
            "F16" => Literal::F16(payload.read(context)?),
            "AbstractFloat" => Literal::AbstractFloat(payload.read::<Double>(context)?.0),
            "U16" => Literal::U16(payload.read(context)?),
            "I16" => Literal::I16(payload.read(context)?),
            "U32" => Literal::U32(payload.read(context)?),
            "I32" => Literal::I32(payload.read(context)?),
            "U64" => Literal::U64(payload.read(context)?),
            "I64" => Literal::I64(payload.read(context)?),
            "AbstractInt" => Literal::AbstractInt(payload.read(context)?),
            "Bool" => Literal::Bool(payload.read(context)?),
            _ => return Err(context.refused("a literal")),
        };
        Ok(Code(found))
    }
}
