//! Reads types, and the bindings of arguments, results and members.
ghost use Rattle.json.specs.Value.{value_view};
ghost use Rattle.shader_json_declarations.specs.BuiltIns.{IsBuiltIn, IsBuiltInOf, IsFlagOf};
ghost use Rattle.shader_json_declarations.specs.Types.{AreTypes, IsBinding, IsInner, IsInnerOf, IsLength, IsLocation};
ghost use Rattle.shader_json_declarations.specs.Types.{IsMember, IsSpace, IsSpaceOf, IsType};
ghost use Rattle.shader_json_reader.specs.Answers.{Accepts};
ghost use Rattle.shader_json_reader.specs.Shapes.{IsObject};
ghost use Rattle.std.specs.Prelude.{◌≡◌, IfOk, None, Some, codes};

use crate::fields::{Data, Fields, Variant};
use crate::interface::{Interpolation, Sampling};
use crate::maps::add_item;
use crate::values::{Read, read_item};
use json::Value;
use shader_arena::UniqueArena;
use shader_builtins::{built_in_named, flag_named};
use shader_ir::{AddressSpace, ArraySize, Binding, BuiltIn, StructMember, Type, TypeInner, mark};
use shader_json_reader::{Context, Failure};

/// What is wanted of a variant with a payload whose name stands alone.
const KEYED: &str = "an object with this name as its key";

impl Read for AddressSpace {
    ghost reads = { λ j space. IsSpace j space };

    fn read(context: Context, value: &Value<'_>) -> Result<AddressSpace, Failure> {
        let Variant { name, payload } = Variant::of(context, value)?;
        match payload {
            Some(payload) => storage(context, name, payload),
            None => space(context, name),
        }
    }
}

/// Reads the address space with a payload.
fn storage(context: Context, name: &str, payload: Data<'_, '_>) -> Result<AddressSpace, Failure>
    ensures reads { IfOk result (IsSpaceOf name.now (Some (value_view payload.entry.value.now))) }
    ensures accepts { Accepts (IsSpaceOf name.now (Some (value_view payload.entry.value.now))) result }
{
    match name {
        "Storage" => Ok(AddressSpace::Storage {
            access: payload.field(context, "access")?,
        }),
        _ => Err(context.refused("an address space")),
    }
}

/// Reads an address space without payload.
fn space(context: Context, name: &str) -> Result<AddressSpace, Failure>
    ensures reads { IfOk result (IsSpaceOf name.now None) }
    ensures accepts { Accepts (IsSpaceOf name.now None) result }
{
    match name {
        "Function" => Ok(AddressSpace::Function),
        "Private" => Ok(AddressSpace::Private),
        "WorkGroup" => Ok(AddressSpace::WorkGroup),
        "Uniform" => Ok(AddressSpace::Uniform),
        "Handle" => Ok(AddressSpace::Handle),
        "Immediate" => Ok(AddressSpace::Immediate),
        "TaskPayload" => Ok(AddressSpace::TaskPayload),
        "RayPayload" => Ok(AddressSpace::RayPayload),
        "IncomingRayPayload" => Ok(AddressSpace::IncomingRayPayload),
        "Storage" => Err(context.refused(KEYED)),
        _ => Err(context.refused("an address space")),
    }
}

impl Read for ArraySize {
    ghost reads = { λ j size. IsLength j size };

    fn read(context: Context, value: &Value<'_>) -> Result<ArraySize, Failure> {
        let Variant { name, payload } = Variant::of(context, value)?;
        match (name, payload) {
            ("Constant", Some(payload)) => Ok(ArraySize::Constant(payload.read(context)?)),
            ("Pending", Some(payload)) => Ok(ArraySize::Pending(payload.read(context)?)),
            ("Dynamic", None) => Ok(ArraySize::Dynamic),
            _ => Err(context.refused("the size of an array")),
        }
    }
}

impl Read for BuiltIn {
    ghost reads = { λ j builtin. IsBuiltIn j builtin };

    fn read(context: Context, value: &Value<'_>) -> Result<BuiltIn, Failure> {
        let Variant { name, payload } = Variant::of(context, value)?;
        match payload {
            Some(payload) => {
                let flag = flag_of(context, name, payload)?;
                known(context, built_in_named(name, Some(flag)))
            }
            None => alone(context, name),
        }
    }
}

/// Returns the built-in value that was found, or rejects the value if naga has none.
fn known(context: Context, found: Option<BuiltIn>) -> Result<BuiltIn, Failure>
    ensures reads { IfOk result (λ built_in. found ≡ Some built_in) }
    ensures accepts { Accepts (λ built_in. found ≡ Some built_in) result }
{
    match found {
        Some(built_in) => Ok(built_in),
        None => Err(context.refused("a built-in value")),
    }
}

/// Returns the built-in value whose name stands alone.
fn alone(context: Context, name: &str) -> Result<BuiltIn, Failure>
    ensures reads { IfOk result (IsBuiltInOf name.now None) }
    ensures accepts { Accepts (IsBuiltInOf name.now None) result }
{
    match built_in_named(name, None) {
        Some(built_in) => Ok(built_in),
        None => Err(context.refused(wanted_alone(name))),
    }
}

/// Returns what is wanted in place of a name that stands alone and is no built-in value.
fn wanted_alone(name: &str) -> &'static str {
    match flag_named(name) {
        Some(_) => KEYED,
        None => "a built-in value",
    }
}

/// Reads the flag that is the payload of a built-in value with that name.
fn flag_of(context: Context, name: &str, payload: Data<'_, '_>) -> Result<bool, Failure>
    ensures reads { IfOk result (λ flag. IsFlagOf name.now (value_view payload.entry.value.now) flag) }
    ensures accepts { Accepts (IsFlagOf name.now (value_view payload.entry.value.now)) result }
{
    match flag_named(name) {
        Some(field) => payload.field(context, field),
        None => Err(context.refused("a built-in value")),
    }
}

impl Read for Binding {
    ghost reads = { λ j binding. IsBinding j binding };

    fn read(context: Context, value: &Value<'_>) -> Result<Binding, Failure> {
        let Variant { name, payload } = Variant::of(context, value)?;
        match (name, payload) {
            ("BuiltIn", Some(payload)) => Ok(Binding::BuiltIn(payload.read(context)?)),
            ("Location", Some(payload)) => Ok(Binding::Location(location(context, payload)?)),
            _ => Err(context.refused("`BuiltIn` or `Location`")),
        }
    }
}

/// Reads a location that stages share. How its value is interpolated and blended is checked and dropped.
fn location(context: Context, payload: Data<'_, '_>) -> Result<u32, Failure>
    ensures reads { IfOk result (λ location. IsObject (value_view payload.entry.value.now) (λ ms. IsLocation ms location)) }
    ensures accepts { Accepts (λ location. IsObject (value_view payload.entry.value.now) (λ ms. IsLocation ms location)) result }
{
    let fields = payload.fields(context)?;
    let location = fields.needed(context, "location")?;
    fields.check_optional::<Interpolation>(context, "interpolation")?;
    fields.check_optional::<Sampling>(context, "sampling")?;
    fields.check_optional::<u32>(context, "blend_src")?;
    Ok(location)
}

impl Read for StructMember {
    ghost reads = { λ j member. IsMember j member };

    fn read(context: Context, value: &Value<'_>) -> Result<StructMember, Failure> {
        let fields = Fields::of(context, value)?;
        Ok(StructMember {
            name: fields.optional(context, "name")?,
            ty: fields.needed(context, "ty")?,
            binding: fields.optional(context, "binding")?,
            offset: fields.needed(context, "offset")?,
        })
    }
}

impl Read for TypeInner {
    ghost reads = { λ j inner. IsInner j inner };

    fn read(context: Context, value: &Value<'_>) -> Result<TypeInner, Failure> {
        let Variant { name, payload } = Variant::of(context, value)?;
        match payload {
            Some(payload) => inner(context, name, payload),
            None => Err(context.refused("a type, with its fields")),
        }
    }
}

/// Reads the type of that name.
fn inner(context: Context, name: &str, payload: Data<'_, '_>) -> Result<TypeInner, Failure>
    ensures reads { IfOk result (IsInnerOf name.now (Some (value_view payload.entry.value.now))) }
    ensures accepts { Accepts (IsInnerOf name.now (Some (value_view payload.entry.value.now))) result }
{
    match name {
        "Scalar" => Ok(TypeInner::Scalar(payload.read(context)?)),
        "Vector" => vector(context, payload),
        "Matrix" => matrix(context, payload),
        "CooperativeMatrix" => cooperative_matrix(context, payload),
        "Atomic" => Ok(TypeInner::Atomic(payload.read(context)?)),
        "Pointer" => pointer(context, payload),
        "ValuePointer" => value_pointer(context, payload),
        "Array" => array(context, payload),
        "Struct" => structure(context, payload),
        "Image" => image(context, payload),
        "Sampler" => sampler(context, payload),
        "AccelerationStructure" => acceleration_structure(context, payload),
        "RayQuery" => ray_query(context, payload),
        "BindingArray" => binding_array(context, payload),
        _ => Err(context.refused("a type")),
    }
}

/// Reads a vector.
fn vector(context: Context, payload: Data<'_, '_>) -> Result<TypeInner, Failure>
    ensures reads { IfOk result (IsInnerOf (codes "Vector") (Some (value_view payload.entry.value.now))) }
    ensures accepts { Accepts (IsInnerOf (codes "Vector") (Some (value_view payload.entry.value.now))) result }
{
    let (size, scalar) = payload.pair(context, "size", "scalar")?;
    Ok(TypeInner::Vector { size, scalar })
}

/// Reads a matrix.
fn matrix(context: Context, payload: Data<'_, '_>) -> Result<TypeInner, Failure>
    ensures reads { IfOk result (IsInnerOf (codes "Matrix") (Some (value_view payload.entry.value.now))) }
    ensures accepts { Accepts (IsInnerOf (codes "Matrix") (Some (value_view payload.entry.value.now))) result }
{
    let (columns, rows, scalar) = payload.triple(context, "columns", "rows", "scalar")?;
    Ok(TypeInner::Matrix {
        columns,
        rows,
        scalar,
    })
}

/// Reads a cooperative matrix.
fn cooperative_matrix(context: Context, payload: Data<'_, '_>) -> Result<TypeInner, Failure>
    ensures reads { IfOk result (IsInnerOf (codes "CooperativeMatrix") (Some (value_view payload.entry.value.now))) }
    ensures accepts { Accepts (IsInnerOf (codes "CooperativeMatrix") (Some (value_view payload.entry.value.now))) result }
{
    let fields = payload.fields(context)?;
    let (columns, rows, scalar) = fields.triple(context, "columns", "rows", "scalar")?;
    Ok(TypeInner::CooperativeMatrix {
        columns,
        rows,
        scalar,
        role: fields.needed(context, "role")?,
    })
}

/// Reads a pointer.
fn pointer(context: Context, payload: Data<'_, '_>) -> Result<TypeInner, Failure>
    ensures reads { IfOk result (IsInnerOf (codes "Pointer") (Some (value_view payload.entry.value.now))) }
    ensures accepts { Accepts (IsInnerOf (codes "Pointer") (Some (value_view payload.entry.value.now))) result }
{
    let (base, space) = payload.pair(context, "base", "space")?;
    Ok(TypeInner::Pointer { base, space })
}

/// Reads a pointer to a scalar or a vector that is no type of its own.
fn value_pointer(context: Context, payload: Data<'_, '_>) -> Result<TypeInner, Failure>
    ensures reads { IfOk result (IsInnerOf (codes "ValuePointer") (Some (value_view payload.entry.value.now))) }
    ensures accepts { Accepts (IsInnerOf (codes "ValuePointer") (Some (value_view payload.entry.value.now))) result }
{
    let fields = payload.fields(context)?;
    let size = fields.optional(context, "size")?;
    let (scalar, space) = fields.pair(context, "scalar", "space")?;
    Ok(TypeInner::ValuePointer {
        size,
        scalar,
        space,
    })
}

/// Reads an array.
fn array(context: Context, payload: Data<'_, '_>) -> Result<TypeInner, Failure>
    ensures reads { IfOk result (IsInnerOf (codes "Array") (Some (value_view payload.entry.value.now))) }
    ensures accepts { Accepts (IsInnerOf (codes "Array") (Some (value_view payload.entry.value.now))) result }
{
    let (base, size, stride) = payload.triple(context, "base", "size", "stride")?;
    Ok(TypeInner::Array { base, size, stride })
}

/// Reads a struct.
fn structure(context: Context, payload: Data<'_, '_>) -> Result<TypeInner, Failure>
    ensures reads { IfOk result (IsInnerOf (codes "Struct") (Some (value_view payload.entry.value.now))) }
    ensures accepts { Accepts (IsInnerOf (codes "Struct") (Some (value_view payload.entry.value.now))) result }
{
    let (members, span) = payload.pair(context, "members", "span")?;
    Ok(TypeInner::Struct { members, span })
}

/// Reads an image.
fn image(context: Context, payload: Data<'_, '_>) -> Result<TypeInner, Failure>
    ensures reads { IfOk result (IsInnerOf (codes "Image") (Some (value_view payload.entry.value.now))) }
    ensures accepts { Accepts (IsInnerOf (codes "Image") (Some (value_view payload.entry.value.now))) result }
{
    let (dim, arrayed, class) = payload.triple(context, "dim", "arrayed", "class")?;
    Ok(TypeInner::Image {
        dim,
        arrayed,
        class,
    })
}

/// Reads a sampler.
fn sampler(context: Context, payload: Data<'_, '_>) -> Result<TypeInner, Failure>
    ensures reads { IfOk result (IsInnerOf (codes "Sampler") (Some (value_view payload.entry.value.now))) }
    ensures accepts { Accepts (IsInnerOf (codes "Sampler") (Some (value_view payload.entry.value.now))) result }
{
    Ok(TypeInner::Sampler {
        comparison: payload.field(context, "comparison")?,
    })
}

/// Reads an acceleration structure.
fn acceleration_structure(context: Context, payload: Data<'_, '_>) -> Result<TypeInner, Failure>
    ensures reads { IfOk result (IsInnerOf (codes "AccelerationStructure") (Some (value_view payload.entry.value.now))) }
    ensures accepts { Accepts (IsInnerOf (codes "AccelerationStructure") (Some (value_view payload.entry.value.now))) result }
{
    Ok(TypeInner::AccelerationStructure {
        vertex_return: payload.field(context, "vertex_return")?,
    })
}

/// Reads a ray query.
fn ray_query(context: Context, payload: Data<'_, '_>) -> Result<TypeInner, Failure>
    ensures reads { IfOk result (IsInnerOf (codes "RayQuery") (Some (value_view payload.entry.value.now))) }
    ensures accepts { Accepts (IsInnerOf (codes "RayQuery") (Some (value_view payload.entry.value.now))) result }
{
    Ok(TypeInner::RayQuery {
        vertex_return: payload.field(context, "vertex_return")?,
    })
}

/// Reads a binding array.
fn binding_array(context: Context, payload: Data<'_, '_>) -> Result<TypeInner, Failure>
    ensures reads { IfOk result (IsInnerOf (codes "BindingArray") (Some (value_view payload.entry.value.now))) }
    ensures accepts { Accepts (IsInnerOf (codes "BindingArray") (Some (value_view payload.entry.value.now))) result }
{
    let (base, size) = payload.pair(context, "base", "size")?;
    Ok(TypeInner::BindingArray { base, size })
}

impl Read for Type {
    ghost reads = { λ j ty. IsType j ty };

    fn read(context: Context, value: &Value<'_>) -> Result<Type, Failure> {
        let fields = Fields::of(context, value)?;
        Ok(Type {
            name: fields.optional(context, "name")?,
            inner: fields.needed(context, "inner")?,
        })
    }
}

impl Read for UniqueArena<Type, mark::Type> {
    ghost reads = { λ j types. AreTypes j types };

    fn read(context: Context, value: &Value<'_>) -> Result<UniqueArena<Type, mark::Type>, Failure> {
        let Value::Array(items) = value else {
            return Err(context.refused("an array"));
        };
        let mut types = UniqueArena::new(context.alloc);
        for (index, item) in items.iter().enumerate() {
            let ty: Type = read_item(context, index, item)?;
            add_item(context, &mut types, index, ty)?;
        }
        Ok(types)
    }
}
