//! Infos of expressions, and resources, as JSON.
ghost use Rattle.std.specs.Prelude.{◌≡◌};
ghost use Rattle.report_json.specs.Infos.{expression_tokens, resource_key, resource_tokens, uniformity_tokens};

use crate::members::{Member, write_object};
use crate::write_json::{WriteJson, write_variant};
use json::Writer;
use shader_info::{ExpressionInfo, GlobalOrArgument, Uniformity};
use std::alloc::{AllocError, Global};

impl WriteJson for Uniformity {
    ghost tokens = { λ uniformity. uniformity_tokens uniformity };

    #[tactic(auto, unfolding(crate::specs::Infos::uniformity_tokens))]
    fn write_json(&self, alloc: Global, writer: &mut Writer) -> Result<(), AllocError> {
        let members = (
            Member("non_uniform_result", &self.non_uniform_result),
            Member("requirements", &self.requirements),
        );
        write_object(alloc, writer, &members)
    }
}

impl WriteJson for ExpressionInfo {
    ghost tokens = { λ info. expression_tokens info };

    #[tactic(auto, unfolding(crate::specs::Infos::expression_tokens))]
    fn write_json(&self, alloc: Global, writer: &mut Writer) -> Result<(), AllocError> {
        let members = (
            Member("uniformity", &self.uniformity),
            Member("ref_count", &self.ref_count),
            Member("ty", &self.ty),
        );
        write_object(alloc, writer, &members)
    }
}

/// A resource: true for an argument and false for a global, and its position.
pub type ResourceKey = (bool, usize);

/// Returns the resource in the form by which resources are ordered.
pub fn resource_key(resource: GlobalOrArgument) -> ResourceKey
    ensures { result ≡ resource_key resource }
{
    match resource {
        GlobalOrArgument::Global(handle) => (false, handle.index()),
        GlobalOrArgument::Argument(index) => (true, index as usize),
    }
}

impl WriteJson for ResourceKey {
    ghost tokens = { λ resource. resource_tokens resource };

    #[tactic(auto, unfolding(crate::specs::Infos::resource_tokens))]
    fn write_json(&self, alloc: Global, writer: &mut Writer) -> Result<(), AllocError> {
        let (is_argument, position) = *self;
        if is_argument {
            write_variant(alloc, writer, "Argument", &position)
        } else {
            write_variant(alloc, writer, "Global", &position)
        }
    }
}
