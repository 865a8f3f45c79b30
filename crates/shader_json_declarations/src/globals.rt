//! Reads a module's constants, overrides and global variables.
ghost use Rattle.shader_json_declarations.specs.Declarations.{IsConstant, IsGlobal, IsOverride};

use crate::fields::Fields;
use crate::interface::ResourceBinding;
use crate::values::Read;
use json::Value;
use shader_ir::{Constant, GlobalVariable, Override};
use shader_json_reader::{Context, Failure};

impl Read for Constant {
    ghost reads = { λ j constant. IsConstant j constant };

    fn read(context: Context, value: &Value<'_>) -> Result<Constant, Failure> {
        let fields = Fields::of(context, value)?;
        let name = fields.optional(context, "name")?;
        let (ty, init) = fields.pair(context, "ty", "init")?;
        Ok(Constant { name, ty, init })
    }
}

impl Read for Override {
    ghost reads = { λ j override. IsOverride j override };

    fn read(context: Context, value: &Value<'_>) -> Result<Override, Failure> {
        let fields = Fields::of(context, value)?;
        let name = fields.optional(context, "name")?;
        fields.check_optional::<u16>(context, "id")?;
        Ok(Override {
            name,
            ty: fields.needed(context, "ty")?,
            init: fields.optional(context, "init")?,
        })
    }
}

impl Read for GlobalVariable {
    ghost reads = { λ j variable. IsGlobal j variable };

    fn read(context: Context, value: &Value<'_>) -> Result<GlobalVariable, Failure> {
        let fields = Fields::of(context, value)?;
        let name = fields.optional(context, "name")?;
        let (space, ty) = fields.pair(context, "space", "ty")?;
        fields.check_optional::<ResourceBinding>(context, "binding")?;
        Ok(GlobalVariable {
            name,
            space,
            ty,
            init: fields.optional(context, "init")?,
        })
    }
}
