//! Types as JSON.
ghost use Rattle.std.specs.Prelude.{OnOk};
ghost use Rattle.report_json.specs.Tokens.{Adds};
ghost use Rattle.report_json.specs.Types.{class_tokens, count_tokens, inner_tokens, matrix_tokens, pointer_tokens};
ghost use Rattle.report_json.specs.Types.{resolution_tokens, resource_tokens, scalar_tokens, space_tokens};

use crate::members::{Member, write_fields, write_object};
use crate::write_json::{WriteJson, write_variant};
use json::Writer;
use shader_ir::proc::TypeResolution;
use shader_ir::{AddressSpace, ArraySize, ImageClass, Scalar, TypeInner};
use std::alloc::{AllocError, Global};

impl WriteJson for Scalar {
    ghost tokens = { λ scalar. scalar_tokens scalar };

    #[tactic(auto, unfolding(crate::specs::Types::scalar_tokens))]
    fn write_json(&self, alloc: Global, writer: &mut Writer) -> Result<(), AllocError> {
        let members = (Member("kind", &self.kind), Member("width", &self.width));
        write_object(alloc, writer, &members)
    }
}

impl WriteJson for AddressSpace {
    ghost tokens = { λ space. space_tokens space };

    #[tactic(auto, unfolding(crate::specs::Types::space_tokens))]
    fn write_json(&self, alloc: Global, writer: &mut Writer) -> Result<(), AllocError> {
        match self {
            AddressSpace::Function => writer.string("Function"),
            AddressSpace::Private => writer.string("Private"),
            AddressSpace::WorkGroup => writer.string("WorkGroup"),
            AddressSpace::Uniform => writer.string("Uniform"),
            AddressSpace::Storage { access } => write_fields(
                alloc,
                writer,
                "Storage",
                &Member("access", access),
            ),
            AddressSpace::Handle => writer.string("Handle"),
            AddressSpace::Immediate => writer.string("Immediate"),
            AddressSpace::TaskPayload => writer.string("TaskPayload"),
            AddressSpace::RayPayload => writer.string("RayPayload"),
            AddressSpace::IncomingRayPayload => writer.string("IncomingRayPayload"),
        }
    }
}

impl WriteJson for ArraySize {
    ghost tokens = { λ size. count_tokens size };

    #[tactic(auto, unfolding(crate::specs::Types::count_tokens))]
    fn write_json(&self, alloc: Global, writer: &mut Writer) -> Result<(), AllocError> {
        match self {
            ArraySize::Constant(count) => write_variant(alloc, writer, "Constant", &count.get()),
            ArraySize::Pending(handle) => write_variant(alloc, writer, "Pending", handle),
            ArraySize::Dynamic => writer.string("Dynamic"),
        }
    }
}

impl WriteJson for ImageClass {
    ghost tokens = { λ class. class_tokens class };

    #[tactic(auto, unfolding(crate::specs::Types::class_tokens))]
    fn write_json(&self, alloc: Global, writer: &mut Writer) -> Result<(), AllocError> {
        match self {
            ImageClass::Sampled { kind, multi } => write_fields(
                alloc,
                writer,
                "Sampled",
                &(Member("kind", kind), Member("multi", multi)),
            ),
            ImageClass::Depth { multi } => write_fields(
                alloc,
                writer,
                "Depth",
                &Member("multi", multi),
            ),
            ImageClass::Storage { format, access } => write_fields(
                alloc,
                writer,
                "Storage",
                &(Member("format", format), Member("access", access)),
            ),
            ImageClass::External => writer.string("External"),
        }
    }
}

impl WriteJson for TypeInner {
    ghost tokens = { λ inner. inner_tokens inner };

    #[tactic(auto, unfolding(crate::specs::Types::inner_tokens))]
    fn write_json(&self, alloc: Global, writer: &mut Writer) -> Result<(), AllocError> {
        match self {
            TypeInner::Scalar(scalar) => write_variant(alloc, writer, "Scalar", scalar),
            TypeInner::Vector { size, scalar } => write_fields(
                alloc,
                writer,
                "Vector",
                &(Member("size", size), Member("scalar", scalar)),
            ),
            TypeInner::Atomic(scalar) => write_variant(alloc, writer, "Atomic", scalar),
            inner => write_matrix(alloc, writer, inner),
        }
    }
}

/// Writes a matrix, or a type that `write_pointer` writes.
#[tactic(auto, unfolding(crate::specs::Types::matrix_tokens))]
fn write_matrix(alloc: Global, writer: &mut Writer, inner: &TypeInner) -> Result<(), AllocError>
    ensures { OnOk result (Adds writer.old writer.new (matrix_tokens inner.now)) }
{
    match inner {
        TypeInner::Matrix {
            columns,
            rows,
            scalar,
        } => write_fields(
            alloc,
            writer,
            "Matrix",
            &(
                Member("columns", columns),
                Member("rows", rows),
                Member("scalar", scalar),
            ),
        ),
        TypeInner::CooperativeMatrix {
            columns,
            rows,
            scalar,
            role,
        } => write_fields(
            alloc,
            writer,
            "CooperativeMatrix",
            &(
                Member("columns", columns),
                Member("rows", rows),
                Member("scalar", scalar),
                Member("role", role),
            ),
        ),
        inner => write_pointer(alloc, writer, inner),
    }
}

/// Writes a pointer, an array, or a type that `write_resource` writes.
#[tactic(auto, unfolding(crate::specs::Types::pointer_tokens))]
fn write_pointer(alloc: Global, writer: &mut Writer, inner: &TypeInner) -> Result<(), AllocError>
    ensures { OnOk result (Adds writer.old writer.new (pointer_tokens inner.now)) }
{
    match inner {
        TypeInner::Pointer { base, space } => write_fields(
            alloc,
            writer,
            "Pointer",
            &(Member("base", base), Member("space", space)),
        ),
        TypeInner::ValuePointer {
            size,
            scalar,
            space,
        } => {
            let members = (
                Member("size", size),
                Member("scalar", scalar),
                Member("space", space),
            );
            write_fields(alloc, writer, "ValuePointer", &members)
        }
        TypeInner::Array { base, size, stride } => {
            let members = (
                Member("base", base),
                Member("size", size),
                Member("stride", stride),
            );
            write_fields(alloc, writer, "Array", &members)
        }
        TypeInner::BindingArray { base, size } => write_fields(
            alloc,
            writer,
            "BindingArray",
            &(Member("base", base), Member("size", size)),
        ),
        inner => write_resource(alloc, writer, inner),
    }
}

/// Writes a resource type. A struct is written as null, because only a type given by a handle is a struct.
#[tactic(auto, unfolding(crate::specs::Types::resource_tokens))]
fn write_resource(alloc: Global, writer: &mut Writer, inner: &TypeInner) -> Result<(), AllocError>
    ensures { OnOk result (Adds writer.old writer.new (resource_tokens inner.now)) }
{
    match inner {
        TypeInner::Image {
            dim,
            arrayed,
            class,
        } => write_fields(
            alloc,
            writer,
            "Image",
            &(
                Member("dim", dim),
                Member("arrayed", arrayed),
                Member("class", class),
            ),
        ),
        TypeInner::Sampler { comparison } => write_fields(
            alloc,
            writer,
            "Sampler",
            &Member("comparison", comparison),
        ),
        TypeInner::AccelerationStructure { vertex_return } => write_fields(
            alloc,
            writer,
            "AccelerationStructure",
            &Member("vertex_return", vertex_return),
        ),
        TypeInner::RayQuery { vertex_return } => write_fields(
            alloc,
            writer,
            "RayQuery",
            &Member("vertex_return", vertex_return),
        ),
        _ => writer.null(),
    }
}

impl WriteJson for TypeResolution {
    ghost tokens = { λ resolution. resolution_tokens resolution };

    #[tactic(auto, unfolding(crate::specs::Types::resolution_tokens))]
    fn write_json(&self, alloc: Global, writer: &mut Writer) -> Result<(), AllocError> {
        match self {
            TypeResolution::Handle(handle) => write_variant(alloc, writer, "Handle", handle),
            TypeResolution::Value(inner) => write_variant(alloc, writer, "Value", inner),
        }
    }
}
