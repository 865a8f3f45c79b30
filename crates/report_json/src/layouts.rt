//! Layouts, and errors of types without one, as JSON.
ghost use Rattle.report_json.specs.Layouts.{layout_cause_tokens, layout_error_tokens, layout_tokens, struct_member_tokens};
ghost use Rattle.report_json.specs.Tokens.{number_tokens};

use crate::members::{Member, write_object};
use crate::write_json::{WriteJson, write_variant};
use json::Writer;
use shader_arena::Handle;
use shader_ir::mark;
use shader_ir::proc::{Alignment, LayoutError, LayoutErrorInner, TypeLayout};
use std::alloc::{AllocError, Global};

impl WriteJson for Alignment {
    ghost tokens = { λ alignment. number_tokens alignment };

    fn write_json(&self, _alloc: Global, writer: &mut Writer) -> Result<(), AllocError> {
        writer.u64(self.get() as u64)
    }
}

impl WriteJson for TypeLayout {
    ghost tokens = { λ layout. layout_tokens layout };

    #[tactic(auto, unfolding(crate::specs::Layouts::layout_tokens))]
    fn write_json(&self, alloc: Global, writer: &mut Writer) -> Result<(), AllocError> {
        let members = (
            Member("size", &self.size),
            Member("alignment", &self.alignment),
        );
        write_object(alloc, writer, &members)
    }
}

/// The number of a struct's member, and its type.
#[derive(Clone, Copy)]
struct StructMemberType(u32, Handle<mark::Type>);

impl WriteJson for StructMemberType {
    ghost tokens = { λ member. struct_member_tokens member.0 member.1 };

    fn write_json(&self, alloc: Global, writer: &mut Writer) -> Result<(), AllocError> {
        writer.begin_array()?;
        self.0.write_json(alloc, writer)?;
        self.1.write_json(alloc, writer)?;
        writer.end_array()
    }
}

impl WriteJson for LayoutErrorInner {
    ghost tokens = { λ inner. layout_cause_tokens inner };

    #[tactic(auto, unfolding(crate::specs::Layouts::layout_cause_tokens))]
    fn write_json(&self, alloc: Global, writer: &mut Writer) -> Result<(), AllocError> {
        match self {
            LayoutErrorInner::InvalidArrayElementType(element) => {
                write_variant(alloc, writer, "InvalidArrayElementType", element)
            }
            LayoutErrorInner::InvalidStructMemberType(member, ty) => {
                let member = StructMemberType(*member, *ty);
                write_variant(alloc, writer, "InvalidStructMemberType", &member)
            }
            LayoutErrorInner::NonPowerOfTwoWidth => writer.string("NonPowerOfTwoWidth"),
            LayoutErrorInner::TooLarge => writer.string("TooLarge"),
        }
    }
}

impl WriteJson for LayoutError {
    ghost tokens = { λ error. layout_error_tokens error };

    #[tactic(auto, unfolding(crate::specs::Layouts::layout_error_tokens))]
    fn write_json(&self, alloc: Global, writer: &mut Writer) -> Result<(), AllocError> {
        let members = (Member("ty", &self.ty), Member("inner", &self.inner));
        write_object(alloc, writer, &members)
    }
}
